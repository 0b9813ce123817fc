//! `AnswersHandle`: the kept answers to `getaddr`.

ghost use Rattle.std.specs.Prelude.{◌≡◌, ◌↔◌, Some, None, IsTrue, IsSome, option_map};
ghost use Rattle.std.specs.declared.option.Option.{Option};
ghost use Rattle.c_handles.specs.declared.answers_handle.KeptAnswers.{KeptAnswers};
ghost use Rattle.c_handles.specs.contracts.answers_handle.KeptAnswers.{the_row};
ghost use Rattle.c_handles.specs.Held.{held};
ghost use Rattle.std.specs.Coded.{codes};
ghost use Rattle.placing.specs.Places.{coded_places};

use addr_answers::Answers;
use box_parts::Parts;
use std::alloc::Global;
use std::marker::Model;
use std::{mem, ptr};

/// What an open handle of answers keeps.
#[derive(Drop)]
pub struct KeptAnswers {
    pub answers: Answers,
}

/// A pointer to what a handle keeps, or none. C sees a pointer without a type.
#[repr(C)]
#[derive(Drop)]
pub struct LooseAnswers {
    at: *mut u8,
    alloc: Global,
    pub ghost kept: { Option KeptAnswers } by { Prim.hlevel (codes, coded_places) },
}

impl Model for LooseAnswers {
    ghost also_owns = { λ h. held the_row h.alloc h.at h.kept };
}

impl LooseAnswers {
    /// Keeps nothing.
    fn none(alloc: Global) -> LooseAnswers
        ensures { result.kept ≡ None }
    {
        LooseAnswers {
            at: ptr::null_mut(),
            alloc,
        }
    }

    /// Keeps what is in a box.
    fn shut(parts: Parts<KeptAnswers, Global>) -> LooseAnswers
        ensures { result.kept ≡ Some parts.value }
    {
        let Parts { at, alloc } = parts;
        LooseAnswers {
            at: at as *mut u8,
            alloc,
        }
    }

    /// Gives the box back.
    fn into_parts(self) -> Parts<KeptAnswers, Global>
        requires some { IsSome self.kept }
        ensures { Some result.value ≡ self.kept }
    {
        let LooseAnswers { at, alloc } = self;
        Parts {
            at: at as *mut KeptAnswers,
            alloc,
        }
    }
}

/// What C holds: the pointer, and whether it is open.
#[repr(C)]
#[derive(Drop)]
pub struct AnswersHandle {
    pub loose: LooseAnswers,
    is_open: bool,
    ghost agrees: { IsTrue is_open ↔ IsSome loose.kept },
}

impl AnswersHandle {
    /// Takes out what the handle keeps, and leaves it closed.
    pub fn take(&mut self, alloc: Global) -> Option<Box<KeptAnswers>>
        ensures taken { option_map (λ b. b.value) result ≡ self.old.loose.kept }
        ensures left { self.new.loose.kept ≡ None }
    {
        let own = mem::replace(
            self,
            AnswersHandle {
                loose: LooseAnswers::none(alloc),
                is_open: false,
            },
        );
        if own.is_open {
            Some(own.loose.into_parts().into_box())
        } else {
            None
        }
    }

    /// Puts something to keep into the handle.
    pub fn put(&mut self, kept: Box<KeptAnswers>)
        ensures { self.new.loose.kept ≡ Some kept.value }
    {
        *self = AnswersHandle {
            loose: LooseAnswers::shut(Parts::of(kept)),
            is_open: true,
        };
    }
    /// Drops what the handle keeps, and leaves it closed.
    pub fn close(&mut self, alloc: Global)
        ensures { self.new.loose.kept ≡ None }
    {
        let _kept = self.take(alloc);
    }
}
