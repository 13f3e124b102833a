//! How a table of words and slots that no thread shares any more is written down, for whoever holds it against another
//! implementation.
#![tactic(auto)]

ghost use Rattle.std.specs.Prelude.{◌≡◌, ℕ, ◌+◌, ◌*◌, ◌<◌, ◌≤◌, [], ◌∷◌, ◌++◌, length, true, false, slice_index_or, vec_len, vec_capacity};
ghost use Rattle.std.specs.Arc.{arc_value};
ghost use Rattle.std.specs.Mem.Slots.{slots_items, slots_filled, slots_len, IsFull};
ghost use Rattle.std.specs.List.{flat_map};
ghost use Rattle.vmx_closing.specs.Standing.{Stood};

use atomic_table::{Closed, Seat, Table, TableRule};
use std::alloc::Global;
use std::sync::Arc;

/// How the value of a slot is written down as bytes.
pub trait WritesDown<S> {
    ghost use Rattle.std.specs.Prelude.{◌≡◌, ℕ, List, ◌+◌, ◌≤◌, ◌++◌, length, vec_len, vec_capacity};

    ghost bytes: { S → List ℕ };

    // the most bytes of a slot
    ghost most: { ℕ };

    /// Writes the bytes behind those that are there, in room that is there.
    fn put(value: &S, into: &mut Vec<u8>)
        requires room { vec_len into.old + length (bytes value.now) ≤ vec_capacity into.old }
        ensures put { into.new.items ≡ into.old.items ++ bytes value.now }
        ensures room { vec_capacity into.old ≤ vec_capacity into.new };

    ghost few: { (x : S) → length (bytes x) ≤ most };
}

/// Puts bytes behind those that are there, in room that is there: it takes no memory.
pub fn append(bytes: &[u8], into: &mut Vec<u8>)
    requires room { vec_len into.old + length bytes.now ≤ vec_capacity into.old }
    ensures items { into.new.items ≡ into.old.items ++ bytes.now }
    ensures room { vec_capacity into.old ≤ vec_capacity into.new }
{
    match into.extend_from_slice(bytes) {
        Ok(()) => {}
        Err(_) => unreachable!(),
    }
}

/// A table that no seat steps over any more.
type Still<S> = Closed<S, Global>;

/// Writes a word behind those that are there.
fn push_word(word: u64, words: &mut Vec<u64>)
    requires room { vec_len words.old < vec_capacity words.old }
    ensures words { words.new.items ≡ words.old.items ++ word ∷ [] }
    ensures room { vec_capacity words.old ≤ vec_capacity words.new }
{
    match words.push(word) {
        Ok(()) => {}
        Err(_) => unreachable!(),
    }
}

/// Writes all words.
fn put_words<S>(closed: &Still<S>, words: &mut Vec<u64>, count: usize)
    requires full { IsFull closed.now.words }
    requires count { count ≡ slots_len closed.now.words }
    requires empty { vec_len words.old ≡ 0 }
    requires room { count ≤ vec_capacity words.old }
    ensures words { words.new.items ≡ slots_items closed.now.words }
{
    for index in 0..count {
        push_word(closed.word(index), words);
    }
}

/// Takes the values out of all slots, and writes their bytes.
fn put_slots<S: Drop, W: WritesDown<S>>(closed: &mut Still<S>, bytes: &mut Vec<u8>)
    requires full { IsFull closed.old.slots }
    requires empty { vec_len bytes.old ≡ 0 }
    requires room { slots_len closed.old.slots * W.most ≤ vec_capacity bytes.old }
    ensures bytes { bytes.new.items ≡ flat_map W.bytes (slots_items closed.old.slots) }
    ensures gone { (k : ℕ) → k < slots_len closed.new.slots → slice_index_or (slots_filled closed.new.slots) k false ≡ false }
{
    let mut index = 0;
    while index < closed.slot_count() {
        let value = closed.take(index);
        W::put(&value, bytes);
        drop(value);
        index += 1;
    }
}

/// Writes down what stands in a table, which goes with it: its words, and the bytes of its slots, one behind the other. Both
/// are empty and have room. It tells whether it did, which it does where no other owner of the table is left; else nothing is
/// written.
pub fn write_down<S: Drop, V, K, P: TableRule<S, V, K>, W: WritesDown<S>>(
    table: Arc<Table<S, V, K, P, Global>, Global>,
    seat: Seat<S, V>,
    words: &mut Vec<u64>,
    bytes: &mut Vec<u8>,
) -> bool
    requires seat { seat.table_id ≡ (arc_value table).shared.table_id }
    requires empty { (vec_len words.old ≡ 0) × (vec_len bytes.old ≡ 0) }
    requires words { seat.table_id.words ≤ vec_capacity words.old }
    requires bytes { seat.table_id.slots * W.most ≤ vec_capacity bytes.old }
    ensures stood { result ≡ true → Stood (P.holds (arc_value table).shared.key) W.bytes seat.id seat.me.0 words.new.items bytes.new.items }
    ensures none { result ≡ false → (vec_len words.new ≡ 0) × (vec_len bytes.new ≡ 0) }
{
    let Some(table) = Arc::into_inner(table) else {
        return false;
    };
    let count = table.word_count();
    let mut closed = table.close_with(seat);
    put_words(&closed, words, count);
    put_slots::<S, W>(&mut closed, bytes);
    closed.free();
    true
}
