//! `LimiterHandle`: the limit on received addresses.

ghost use Rattle.std.specs.Prelude.{◌≡◌, ◌↔◌, Some, None, IsTrue, IsSome, option_map};
ghost use Rattle.std.specs.declared.option.Option.{Option};
ghost use Rattle.c_handles.specs.declared.limiter_handle.KeptLimiter.{KeptLimiter};
ghost use Rattle.c_handles.specs.contracts.limiter_handle.KeptLimiter.{the_row};
ghost use Rattle.c_handles.specs.Held.{held};
ghost use Rattle.std.specs.Coded.{codes};
ghost use Rattle.placing.specs.Places.{coded_places};

use crate::keyed::Keyed;
use box_parts::Parts;
use limiter::Limiter;
use std::alloc::Global;
use std::marker::Model;
use std::{mem, ptr};

/// What an open handle of a limit keeps.
#[derive(Drop)]
pub struct KeptLimiter {
    pub limiter: Limiter<Keyed>,
}

/// A pointer to what a handle keeps, or none. C sees a pointer without a type.
#[repr(C)]
#[derive(Drop)]
pub struct LooseLimiter {
    at: *mut u8,
    alloc: Global,
    pub ghost kept: { Option KeptLimiter } by { Prim.hlevel (codes, coded_places) },
}

impl Model for LooseLimiter {
    ghost also_owns = { λ h. held the_row h.alloc h.at h.kept };
}

impl LooseLimiter {
    /// Keeps nothing.
    fn none(alloc: Global) -> LooseLimiter
        ensures { result.kept ≡ None }
    {
        LooseLimiter {
            at: ptr::null_mut(),
            alloc,
        }
    }

    /// Keeps what is in a box.
    fn shut(parts: Parts<KeptLimiter, Global>) -> LooseLimiter
        ensures { result.kept ≡ Some parts.value }
    {
        let Parts { at, alloc } = parts;
        LooseLimiter {
            at: at as *mut u8,
            alloc,
        }
    }

    /// Gives the box back.
    fn into_parts(self) -> Parts<KeptLimiter, Global>
        requires some { IsSome self.kept }
        ensures { Some result.value ≡ self.kept }
    {
        let LooseLimiter { at, alloc } = self;
        Parts {
            at: at as *mut KeptLimiter,
            alloc,
        }
    }
}

/// What C holds: the pointer, and whether it is open.
#[repr(C)]
#[derive(Drop)]
pub struct LimiterHandle {
    pub loose: LooseLimiter,
    is_open: bool,
    ghost agrees: { IsTrue is_open ↔ IsSome loose.kept },
}

impl LimiterHandle {
    /// Takes out what the handle keeps, and leaves it closed.
    pub fn take(&mut self, alloc: Global) -> Option<Box<KeptLimiter>>
        ensures taken { option_map (λ b. b.value) result ≡ self.old.loose.kept }
        ensures left { self.new.loose.kept ≡ None }
    {
        let own = mem::replace(
            self,
            LimiterHandle {
                loose: LooseLimiter::none(alloc),
                is_open: false,
            },
        );
        if own.is_open {
            Some(own.loose.into_parts().into_box())
        } else {
            None
        }
    }

    /// Puts something to keep into the handle.
    pub fn put(&mut self, kept: Box<KeptLimiter>)
        ensures { self.new.loose.kept ≡ Some kept.value }
    {
        *self = LimiterHandle {
            loose: LooseLimiter::shut(Parts::of(kept)),
            is_open: true,
        };
    }
    /// Drops what the handle keeps, and leaves it closed.
    pub fn close(&mut self, alloc: Global)
        ensures { self.new.loose.kept ≡ None }
    {
        let _kept = self.take(alloc);
    }
}
