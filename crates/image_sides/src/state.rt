//! How many state words tasks have.
ghost use Rattle.std.specs.Prelude.{◌≡◌, ◌≤◌, IfOk, All, map};
ghost use Rattle.word_code.specs.Cells.{width_of, is_state};
ghost use Rattle.word_code.specs.Typing.{IsVerified};
ghost use Rattle.image_sides.specs.Sides.{state_words};

use mars_base::{Memory, Role};
use sqlite_items::Items;
use std::alloc::Global;
use word_code::{CellShape, Verified};

fn state_width(cells: &[CellShape]) -> u16
    requires { width_of is_state cells.now ≤ 4096 }
    ensures { result ≡ width_of is_state cells.now }
{
    let mut words = 0;
    for cell in cells {
        if let Role::State = cell.role {
            words += cell.width;
        }
    }
    words
}

fn words_of(program: &Verified) -> u16
    ensures { result ≡ state_words program.now }
{
    state_width(program.code().cells.as_slice())
}

/// How many words the state cells of each code have together.
pub fn states_of(alloc: Global, programs: &[Verified]) -> Result<Items<u16>, Memory>
    ensures { IfOk result (λ states. states ≡ map state_words programs.now) }
{
    let mut states = Items::new(alloc);
    for program in programs {
        states.push(words_of(program))?;
    }
    Ok(states)
}
