//! `BansHandle`: a list of bans.

ghost use Rattle.std.specs.Prelude.{◌≡◌, ◌↔◌, Some, None, IsTrue, IsSome, option_map};
ghost use Rattle.std.specs.declared.option.Option.{Option};
ghost use Rattle.c_handles.specs.declared.bans_handle.KeptBans.{KeptBans};
ghost use Rattle.c_handles.specs.contracts.bans_handle.KeptBans.{the_row};
ghost use Rattle.c_handles.specs.Held.{held};
ghost use Rattle.std.specs.Coded.{codes};
ghost use Rattle.placing.specs.Places.{coded_places};

use ban_list::Bans;
use box_parts::Parts;
use std::alloc::Global;
use std::marker::Model;
use std::{mem, ptr};

/// What an open handle of bans keeps.
#[derive(Drop)]
pub struct KeptBans {
    pub bans: Bans,
}

/// A pointer to what a handle keeps, or none. C sees a pointer without a type.
#[repr(C)]
#[derive(Drop)]
pub struct LooseBans {
    at: *mut u8,
    alloc: Global,
    pub ghost kept: { Option KeptBans } by { Prim.hlevel (codes, coded_places) },
}

impl Model for LooseBans {
    ghost also_owns = { λ h. held the_row h.alloc h.at h.kept };
}

impl LooseBans {
    /// Keeps nothing.
    fn none(alloc: Global) -> LooseBans
        ensures { result.kept ≡ None }
    {
        LooseBans {
            at: ptr::null_mut(),
            alloc,
        }
    }

    /// Keeps what is in a box.
    fn shut(parts: Parts<KeptBans, Global>) -> LooseBans
        ensures { result.kept ≡ Some parts.value }
    {
        let Parts { at, alloc } = parts;
        LooseBans {
            at: at as *mut u8,
            alloc,
        }
    }

    /// Gives the box back.
    fn into_parts(self) -> Parts<KeptBans, Global>
        requires some { IsSome self.kept }
        ensures { Some result.value ≡ self.kept }
    {
        let LooseBans { at, alloc } = self;
        Parts {
            at: at as *mut KeptBans,
            alloc,
        }
    }
}

/// What C holds: the pointer, and whether it is open.
#[repr(C)]
#[derive(Drop)]
pub struct BansHandle {
    pub loose: LooseBans,
    is_open: bool,
    ghost agrees: { IsTrue is_open ↔ IsSome loose.kept },
}

impl BansHandle {
    /// Takes out what the handle keeps, and leaves it closed.
    pub fn take(&mut self, alloc: Global) -> Option<Box<KeptBans>>
        ensures taken { option_map (λ b. b.value) result ≡ self.old.loose.kept }
        ensures left { self.new.loose.kept ≡ None }
    {
        let own = mem::replace(
            self,
            BansHandle {
                loose: LooseBans::none(alloc),
                is_open: false,
            },
        );
        if own.is_open {
            Some(own.loose.into_parts().into_box())
        } else {
            None
        }
    }

    /// Puts something to keep into the handle.
    pub fn put(&mut self, kept: Box<KeptBans>)
        ensures { self.new.loose.kept ≡ Some kept.value }
    {
        *self = BansHandle {
            loose: LooseBans::shut(Parts::of(kept)),
            is_open: true,
        };
    }
    /// Drops what the handle keeps, and leaves it closed.
    pub fn close(&mut self, alloc: Global)
        ensures { self.new.loose.kept ≡ None }
    {
        let _kept = self.take(alloc);
    }
}
