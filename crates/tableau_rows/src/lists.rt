//! A list that is forked.

ghost use Rattle.std.specs.Prelude.{◌≡◌, ◌<◌, ◌∷◌, ◌++◌, [], false, length, IfOk};

use seg_list::SegList;
use std::alloc::{AllocError, Global};

/// The list with one more item.
fn with(list: SegList<u32>, item: u32) -> Result<SegList<u32>, AllocError>
    requires open { list.sealed ≡ false }
    requires room { length list.items < 4294967295 }
    ensures open { IfOk result (λ l. l.sealed ≡ false) }
    ensures items { IfOk result (λ l. l.items ≡ list.items ++ item ∷ []) }
{
    let mut list = list;
    match list.push(item) {
        Ok(()) => Ok(list),
        Err(_) => Err(AllocError),
    }
}

/// The items of the list, and where its own part starts.
fn told(alloc: Global, list: &SegList<u32>) -> Result<String, AllocError> {
    let mut items = String::new(alloc);
    for place in 0..list.len() {
        if let Some(item) = list.get(place) {
            let word = format!(in alloc; " {item}")?;
            items.push_str(word.as_str())?;
        }
    }
    let start = list.own_start();
    format!(in alloc; "list{items}, its own from place {start} on\n")
}

/// The list of 1, 2 and 3.
fn three(alloc: Global) -> Result<SegList<u32>, AllocError>
    ensures { IfOk result (λ l. l.items ≡ 1 ∷ 2 ∷ 3 ∷ []) }
{
    let one = with(SegList::empty(alloc), 1)?;
    let two = with(one, 2)?;
    with(two, 3)
}

/// Tells of both lists that go on from 1, 2, 3, one with 4 and the other with 5.
pub(crate) fn forked(alloc: Global) -> Result<String, AllocError> {
    let Ok(sealed) = three(alloc)?.seal() else {
        return Err(AllocError);
    };
    let (left, right) = sealed.fork()?;
    let mut text = told(alloc, &with(left, 4)?)?;
    let other = told(alloc, &with(right, 5)?)?;
    text.push_str(other.as_str())?;
    Ok(text)
}
