//! The values of the options that are no mere numbers.

ghost use Rattle.std.specs.Prelude.{◌≡◌, ℕ, Bool, false, Option, List, IfSome, IsNone};
ghost use Rattle.goeland_words.specs.Table.{text_in};
ghost use Rattle.goeland_words.specs.Values.{IsFile, IsTries, IsRewrite, IsSchedule};
ghost use Rattle.goeland_words.specs.Cut.{has_byte, CutsAt};

use crate::limits::{MAX_SEED, MAX_TRIES, MAX_TURNS};
use crate::number::number_in;
use crate::prove::Schedule;

/// The limit of tries, or `None` where the text is none.
pub(crate) fn tries_of(text: Option<&str>) -> Option<Option<u64>>
    ensures some { IfSome result (IsTries (text_in text.entry)) }
    ensures none { IsNone result → (r : Option ℕ) → IsTries (text_in text.entry) r → ⊥ }
{
    let Some(text) = text else {
        return Some(None);
    };
    if text == "none" {
        return Some(None);
    }
    let number = number_in(text, 1, MAX_TRIES)?;
    Some(Some(number))
}

/// Whether literals are rewritten, or `None` where the text does not say.
pub(crate) fn rewrite_of(text: Option<&str>) -> Option<bool>
    ensures some { IfSome result (IsRewrite (text_in text.entry)) }
    ensures none { IsNone result → (r : Bool) → IsRewrite (text_in text.entry) r → ⊥ }
{
    let Some(text) = text else {
        return Some(true);
    };
    if text == "on" {
        return Some(true);
    }
    if text == "off" {
        return Some(false);
    }
    None
}

/// The texts before and after the first comma, if there is one.
fn at_comma(text: &str) -> Option<(&str, &str)>
    ensures some { IfSome result (λ p. CutsAt 44 p.0.now p.1.now text.now) }
    ensures none { IsNone result → has_byte 44 text.now ≡ false }
{
    text.split_once(',')
}

/// The schedule, or `None` where the text is none.
pub(crate) fn schedule_of(text: Option<&str>) -> Option<Option<Schedule>>
    ensures some { IfSome result (IsSchedule (text_in text.entry)) }
    ensures none { IsNone result → (r : Option Schedule) → IsSchedule (text_in text.entry) r → ⊥ }
{
    let Some(text) = text else {
        return Some(None);
    };
    let (seed, turns) = at_comma(text)?;
    let seed = number_in(seed, 0, MAX_SEED)?;
    let turns = number_in(turns, 0, MAX_TURNS)?;
    Some(Some(Schedule {
        seed,
        turns: turns as u32,
    }))
}

/// The name of the problem, or `None` where it is empty.
pub(crate) fn file_of(text: Option<&str>) -> Option<&str>
    ensures some { IfSome result (λ f. IsFile (text_in text.entry) f.now) }
    ensures none { IsNone result → (f : List ℕ) → IsFile (text_in text.entry) f → ⊥ }
{
    let Some(text) = text else {
        return Some("-");
    };
    if text.is_empty() {
        return None;
    }
    Some(text)
}
