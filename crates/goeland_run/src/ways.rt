//! In what way the rounds of a run are settled.

ghost use Rattle.std.specs.Prelude.{◌≡◌};
ghost use Rattle.goeland_run.specs.Searched.{order_of, way_of};

use deepening::{Order, Way};
use goeland_words::Schedule;

/// Whether a run may start threads.
#[derive(Clone, Copy)]
pub enum Threading {
    OneThread,
    ManyThreads,
}

/// The order that the words ask for.
fn order_of(schedule: Option<Schedule>) -> Order
    ensures { result ≡ order_of schedule }
{
    match schedule {
        None => Order::Plain,
        Some(Schedule { seed, turns }) => Order::Scheduled { seed, turns },
    }
}

/// The way that the words ask for: so many workers, or the calling thread alone where there is one, where the picks
/// of a schedule are asked for, or where no thread may be started.
pub(crate) fn way_of(threads: Threading, workers: u32, schedule: Option<Schedule>) -> Way
    ensures { result ≡ way_of threads workers schedule }
{
    match (threads, schedule) {
        (Threading::ManyThreads, None) if workers >= 2 => Way::Agents(workers),
        (_, schedule) => Way::Alone(order_of(schedule)),
    }
}
