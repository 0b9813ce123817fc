//! `Handle`: tables and open peers.

ghost use Rattle.std.specs.Prelude.{◌≡◌, ◌↔◌, Some, None, IsTrue, IsSome, option_map};
ghost use Rattle.std.specs.declared.option.Option.{Option};
ghost use Rattle.c_handles.specs.declared.handle.Kept.{Kept};
ghost use Rattle.c_handles.specs.contracts.handle.Kept.{the_row};
ghost use Rattle.c_handles.specs.Held.{held};
ghost use Rattle.std.specs.Coded.{codes};
ghost use Rattle.placing.specs.Places.{coded_places};

use crate::keyed::Keyed;
use box_parts::Parts;
use peer_open::Opener;
use std::alloc::Global;
use std::marker::Model;
use std::{mem, ptr};
use tables::Tables;

/// What an open handle keeps: the tables, and the outbound peers that are open.
#[derive(Drop)]
pub struct Kept {
    pub tables: Tables<'static, Keyed>,
    pub opener: Opener,
}

/// A pointer to what a handle keeps, or none. C sees a pointer without a type.
#[repr(C)]
#[derive(Drop)]
pub struct Loose {
    at: *mut u8,
    alloc: Global,
    pub ghost kept: { Option Kept } by { Prim.hlevel (codes, coded_places) },
}

impl Model for Loose {
    ghost also_owns = { λ h. held the_row h.alloc h.at h.kept };
}

impl Loose {
    /// Keeps nothing.
    fn none(alloc: Global) -> Loose
        ensures { result.kept ≡ None }
    {
        Loose {
            at: ptr::null_mut(),
            alloc,
        }
    }

    /// Keeps what is in a box.
    fn shut(parts: Parts<Kept, Global>) -> Loose
        ensures { result.kept ≡ Some parts.value }
    {
        let Parts { at, alloc } = parts;
        Loose {
            at: at as *mut u8,
            alloc,
        }
    }

    /// Gives the box back.
    fn into_parts(self) -> Parts<Kept, Global>
        requires some { IsSome self.kept }
        ensures { Some result.value ≡ self.kept }
    {
        let Loose { at, alloc } = self;
        Parts {
            at: at as *mut Kept,
            alloc,
        }
    }
}

/// What C holds: the pointer, and whether it is open.
#[repr(C)]
#[derive(Drop)]
pub struct Handle {
    pub loose: Loose,
    is_open: bool,
    ghost agrees: { IsTrue is_open ↔ IsSome loose.kept },
}

impl Handle {
    /// Takes out what the handle keeps, and leaves it closed.
    pub fn take(&mut self, alloc: Global) -> Option<Box<Kept>>
        ensures taken { option_map (λ b. b.value) result ≡ self.old.loose.kept }
        ensures left { self.new.loose.kept ≡ None }
    {
        let own = mem::replace(
            self,
            Handle {
                loose: Loose::none(alloc),
                is_open: false,
            },
        );
        if own.is_open {
            Some(own.loose.into_parts().into_box())
        } else {
            None
        }
    }

    /// Puts something to keep into the handle.
    pub fn put(&mut self, kept: Box<Kept>)
        ensures { self.new.loose.kept ≡ Some kept.value }
    {
        *self = Handle {
            loose: Loose::shut(Parts::of(kept)),
            is_open: true,
        };
    }
    /// Drops what the handle keeps, and leaves it closed.
    pub fn close(&mut self, alloc: Global)
        ensures { self.new.loose.kept ≡ None }
    {
        let _kept = self.take(alloc);
    }
}
