//! Fields that are one of two keywords: `test` or `force`, `count` or `nocount`, `new` or `any`.

ghost use Rattle.std.specs.Prelude.{codes};
ghost use Rattle.std.proofs.Common.{arith, ap, get_or};

use grammar::Choice;

/// Whether the occupant of a slot is tested before it is replaced.
pub struct Testing;

impl Choice for Testing {
    ghost first = { codes "test" };

    ghost second = { codes "force" };

    ghost apart = { λ e. Prim.omega (arith, ap (λ t. get_or t 0 0) e) };

    fn first() -> &'static [u8] {
        b"test"
    }

    fn second() -> &'static [u8] {
        b"force"
    }
}

/// Whether a try may count as a failure.
pub struct Counting;

impl Choice for Counting {
    ghost first = { codes "count" };

    ghost second = { codes "nocount" };

    ghost apart = { λ e. Prim.omega (arith, ap (λ t. get_or t 0 0) e) };

    fn first() -> &'static [u8] {
        b"count"
    }

    fn second() -> &'static [u8] {
        b"nocount"
    }
}

/// Whether a peer is selected only from the new table.
pub struct NewOnly;

impl Choice for NewOnly {
    ghost first = { codes "new" };

    ghost second = { codes "any" };

    ghost apart = { λ e. Prim.omega (arith, ap (λ t. get_or t 0 0) e) };

    fn first() -> &'static [u8] {
        b"new"
    }

    fn second() -> &'static [u8] {
        b"any"
    }
}
