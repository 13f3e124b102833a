//! What all actors left, and the links between them.
ghost use Rattle.std.specs.Prelude.{◌≡◌, ◌<◌, length, map, slice_index_or, IfOk};
ghost use Rattle.vmx_link.specs.Ends.{facts_view};
ghost use Rattle.vmx_model.specs.Views.{GuestView};

use crate::guest::GuestRecordOf;
use std::alloc::{AllocError, Global};
use std::marker::Model;
use vmx_ends::Fabric;
use vmx_io::List;
use vmx_link::LinkFacts;
use vmx_model::Entry;

/// The record of a replay. Contracts see it as the model's `RecordView`.
#[derive(Drop)]
pub struct RecordOf<F: Fabric> {
    /// The guests, in port order.
    pub guests: List<GuestRecordOf<F>>,
    /// The links from each port to each other, by sender and then target.
    pub links: List<LinkFacts>,
}

impl<F: Fabric> Model for RecordOf<F> {
    ghost use Rattle.std.specs.Prelude.{map};
    ghost use Rattle.vmx_link.specs.Ends.{facts_view};
    ghost use Rattle.vmx_model.specs.Views.{RecordView};

    ghost Value = { RecordView };

    ghost view = { λ r. record { guests = r.guests; links = map facts_view r.links } };
}

impl<F: Fabric> RecordOf<F> {
    /// How many guests there are.
    pub fn guests(&self) -> usize
        ensures count { result ≡ length self.now.guests }
    {
        self.guests.len()
    }

    /// The guest at a port.
    pub fn guest(&self, port: usize) -> &GuestRecordOf<F>
        requires within { port < length self.now.guests }
        ensures guest { result.now ≡ slice_index_or self.now.guests port result.now }
    {
        self.guests.at(port)
    }

    /// How many links there are.
    pub fn links(&self) -> usize
        ensures count { result ≡ length self.now.links }
    {
        self.links.len()
    }

    /// A link, by sender and then target.
    pub fn link(&self, index: usize) -> &LinkFacts
        requires within { index < length self.now.links }
        ensures facts { facts_view result.now ≡ slice_index_or self.now.links index (facts_view result.now) }
    {
        self.links.at(index)
    }

    /// The journals of all devices, by port.
    pub fn journals(&self, alloc: Global) -> Result<Vec<&[Entry]>, AllocError>
        ensures journals { IfOk result (λ js. map (λ j. j.now) js.items ≡ map (λ (v : GuestView). v.entries) self.now.guests) }
    {
        let mut journals = Vec::with_capacity(alloc, self.guests.len())?;
        for guest in self.guests.as_slice() {
            journals.push(guest.entries())?;
        }
        Ok(journals)
    }
}
