//! The words of a task's cells.
ghost use Rattle.std.specs.Prelude.{◌≡◌, slice_set};
ghost use Rattle.mars_base.specs.Store.{word_at, place_of};
ghost use Rattle.mc_tree.specs.Plain.{place_in, width_in};

use mc_tree::Cell;
use sqlite_items::at;

// The place of the cell of a number.
pub fn place(cells: &[Cell], cell: u16) -> u16
    ensures { result ≡ place_in cells.now cell }
{
    match at(cells, usize::from(cell)) {
        Some(cell) => cell.place,
        None => 0,
    }
}

// The width of the cell of a number.
pub fn width(cells: &[Cell], cell: u16) -> u16
    ensures { result ≡ width_in cells.now cell }
{
    match at(cells, usize::from(cell)) {
        Some(cell) => cell.width,
        None => 0,
    }
}

// The word at a place.
pub fn word(words: &[i32], place: usize) -> i32
    ensures { result ≡ word_at words.now place }
{
    match at(words, place) {
        Some(word) => *word,
        None => 0,
    }
}

// Sets the word at a place.
pub fn set_word(words: &mut [i32], place: usize, word: i32)
    ensures { words.new ≡ slice_set words.old place word }
{
    if place < words.len() {
        words[place] = word;
    }
}

// The place of the element that an index names; none where the index isn't from 0 to below the width.
pub fn element(place: u16, width: u16, index: i32) -> Option<usize>
    ensures { result ≡ place_of place width index }
{
    if index < 0 {
        return None;
    }
    let index = index.unsigned_abs();
    if index < u32::from(width) {
        return Some(usize::from(place) + index as usize);
    }
    None
}
