//! How a client reads the views that the worker publishes.
ghost use Rattle.std.specs.Prelude.{◌≡◌, IfOk};
ghost use mathlib.Core.List.{IsPrefix};
ghost use Rattle.rdm_lanes.specs.Views.{last_view, last_view_run};

use crate::views::history::{Front, ViewHistory};
use crate::views::publishing::{Publisher, Shown};
use left_right::ReadHandle;
use rdm_client::DeviceView;
use std::alloc::AllocError;
use std::marker::Model;
use std::sync::Wait;

/// Reads views. Contracts see the published views up to the last one that it read. It keeps that one.
#[derive(Drop)]
pub struct ViewReader<J: ViewHistory> {
    handle: ReadHandle<Shown<J>>,
    read: Shown<J>,
}

impl<J: ViewHistory> Model for ViewReader<J> {
    ghost use Rattle.std.specs.Prelude.{List};
    ghost use Rattle.rdm_client.specs.declared.view.DeviceView.{DeviceView};

    ghost Value = { List DeviceView };

    ghost view = { λ r. r.read };
}

impl<J: ViewHistory> ViewReader<J> {
    /// Reads what is published. It continues from what was read before, and copies no set. If nothing can be read, as
    /// when the worker is gone, it keeps what it had read. It never waits.
    #[tactic(auto, using(crate::proofs::Fronts::prefix_self))]
    pub fn read(&mut self)
        ensures { IsPrefix self.old self.new }
    {
        let Some(guard) = self.handle.enter() else {
            return;
        };
        if let Some(next) = guard.after(&self.read) {
            self.read = next;
        }
    }

    /// The last view that was read.
    pub fn last(&self) -> &DeviceView
        ensures { result.now ≡ last_view self.now }
    {
        &self.read.view
    }

    /// The views up to the last one that was read.
    pub fn front(&self) -> &Front<J>
        ensures { result.now ≡ self.now }
    {
        &self.read.front
    }
}

impl<J: ViewHistory, R: Wait + Drop> Publisher<J, Shown<J>, R> {
    /// A reader that has read what is published. Err: each place for a reader is in use, or something has as many
    /// owners as can be counted.
    pub fn reader(&self) -> Result<ViewReader<J>, AllocError>
        ensures { IfOk result (λ r. r ≡ self.now.shown) }
    {
        let handle = self.handle()?;
        let Some(read) = self.shown_now() else {
            return Err(AllocError);
        };
        Ok(ViewReader { handle, read })
    }
}
