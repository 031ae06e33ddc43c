//! Verified code fits the fields of an image: each number in it is in its type's range.
ghost use Rattle.std.specs.Prelude.{ℕ, ◌<◌, length, get_or};
ghost use Rattle.image_tasks.specs.Task.{code};
ghost use Rattle.word_code.specs.Typing.{IsVerified};
ghost use Rattle.image.specs.Helpers.{no_code};

use image_parts::slots_fit;
use word_code::Verified;

fn program_fits(program: &Verified)
    ensures verified { IsVerified program.now }
    ensures fits { code.fits program.now }
{
    slots_fit(program.code().instrs.as_slice());
}

fn program_fits_at(programs: &[Verified], place: usize)
    requires { place < length programs.now }
    ensures verified { IsVerified (get_or programs.now place no_code) }
    ensures fits { code.fits (get_or programs.now place no_code) }
{
    program_fits(&programs[place]);
}

/// Each of the programs fits.
pub(crate) fn programs_fit(programs: &[Verified])
    ensures verified { (place : ℕ) → place < length programs.now → IsVerified (get_or programs.now place no_code) }
    ensures fits { (place : ℕ) → place < length programs.now → code.fits (get_or programs.now place no_code) }
{
    for place in 0..programs.len() {
        program_fits_at(programs, place);
    }
}
