//! `SaveHandle`: a save in pieces.

ghost use Rattle.std.specs.Prelude.{◌≡◌, ◌↔◌, Some, None, IsTrue, IsSome, option_map};
ghost use Rattle.std.specs.declared.option.Option.{Option};
ghost use Rattle.c_handles.specs.declared.save_handle.KeptSave.{KeptSave};
ghost use Rattle.c_handles.specs.contracts.save_handle.KeptSave.{the_row};
ghost use Rattle.c_handles.specs.Held.{held};
ghost use Rattle.std.specs.Coded.{codes};
ghost use Rattle.placing.specs.Places.{coded_places};

use box_parts::Parts;
use save_requests::SaveRequests;
use std::alloc::Global;
use std::marker::Model;
use std::{mem, ptr};

/// What an open handle of a save keeps.
#[derive(Drop)]
pub struct KeptSave {
    pub requests: SaveRequests,
}

/// A pointer to what a handle keeps, or none. C sees a pointer without a type.
#[repr(C)]
#[derive(Drop)]
pub struct LooseSave {
    at: *mut u8,
    alloc: Global,
    pub ghost kept: { Option KeptSave } by { Prim.hlevel (codes, coded_places) },
}

impl Model for LooseSave {
    ghost also_owns = { λ h. held the_row h.alloc h.at h.kept };
}

impl LooseSave {
    /// Keeps nothing.
    fn none(alloc: Global) -> LooseSave
        ensures { result.kept ≡ None }
    {
        LooseSave {
            at: ptr::null_mut(),
            alloc,
        }
    }

    /// Keeps what is in a box.
    fn shut(parts: Parts<KeptSave, Global>) -> LooseSave
        ensures { result.kept ≡ Some parts.value }
    {
        let Parts { at, alloc } = parts;
        LooseSave {
            at: at as *mut u8,
            alloc,
        }
    }

    /// Gives the box back.
    fn into_parts(self) -> Parts<KeptSave, Global>
        requires some { IsSome self.kept }
        ensures { Some result.value ≡ self.kept }
    {
        let LooseSave { at, alloc } = self;
        Parts {
            at: at as *mut KeptSave,
            alloc,
        }
    }
}

/// What C holds: the pointer, and whether it is open.
#[repr(C)]
#[derive(Drop)]
pub struct SaveHandle {
    pub loose: LooseSave,
    is_open: bool,
    ghost agrees: { IsTrue is_open ↔ IsSome loose.kept },
}

impl SaveHandle {
    /// Takes out what the handle keeps, and leaves it closed.
    pub fn take(&mut self, alloc: Global) -> Option<Box<KeptSave>>
        ensures taken { option_map (λ b. b.value) result ≡ self.old.loose.kept }
        ensures left { self.new.loose.kept ≡ None }
    {
        let own = mem::replace(
            self,
            SaveHandle {
                loose: LooseSave::none(alloc),
                is_open: false,
            },
        );
        if own.is_open {
            Some(own.loose.into_parts().into_box())
        } else {
            None
        }
    }

    /// Opens the handle with a save.
    pub fn put(&mut self, kept: Box<KeptSave>)
        ensures { self.new.loose.kept ≡ Some kept.value }
    {
        *self = SaveHandle {
            loose: LooseSave::shut(Parts::of(kept)),
            is_open: true,
        };
    }
    /// Drops what the handle keeps, and leaves it closed.
    pub fn close(&mut self, alloc: Global)
        ensures { self.new.loose.kept ≡ None }
    {
        let _kept = self.take(alloc);
    }
}
