//! `Waiter`: a collision as a number and an id, with `forget` for a record that is deleted.

ghost use Rattle.std.specs.Prelude.{◌≡◌, ◌==◌, map};
ghost use Rattle.table_plan.specs.Waiters.{forget, id_without};

/// A collision: the number of the record that waits for a slot of the tried table, and the record's
/// id, or `None` once the record is deleted.
#[derive(Clone, Copy)]
pub struct Waiter {
    pub number: u64,
    pub id: Option<usize>,
}

impl Waiter {
    /// Returns `true` if it is the collision of a number.
    pub fn is_of(&self, number: u64) -> bool
        ensures { result ≡ (self.now.number == number) }
    {
        self.number == number
    }
}

/// The value in the unused room of a list.
impl Default for Waiter {
    fn default() -> Waiter {
        Waiter {
            number: 0,
            id: None,
        }
    }
}

/// Drops the id of a record that is deleted.
pub fn forget(waiters: &mut [Waiter], gone: usize)
    ensures { waiters.new ≡ map (forget gone) waiters.old }
{
    for waiter in waiters.iter_mut() {
        waiter.id = id_without(gone, waiter.id);
    }
}

/// Returns an id, or `None` if its record is deleted.
fn id_without(gone: usize, id: Option<usize>) -> Option<usize>
    ensures { result ≡ id_without gone id }
{
    match id {
        Some(id) => { if id == gone { None } else { Some(id) } }
        None => None,
    }
}
