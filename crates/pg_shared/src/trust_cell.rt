//! The trust list behind its lock.

ghost use Rattle.std.specs.Prelude.{◌≡◌};
ghost use Rattle.cs_policy.specs.declared.entry.Event.TheVariants as event;
ghost use Rattle.cs_policy.specs.declared.entry.Reply.TheVariants as reply;
ghost use Rattle.cs_policy.specs.declared.entry.Place.TheVariants as place;
ghost use Rattle.pg_trusted.specs.TrustStep.{trust_step};
ghost use Rattle.pg_calls.specs.Parts.{HasRoom, Asks};
ghost use Rattle.pg_calls.specs.Asking.{IsProperTrust};
ghost use Rattle.pg_parts.specs.Opened.{numbers_in};
ghost use Rattle.pg_shared.specs.Passes.{shown, IsPassOf};
ghost use Rattle.pg_shared.specs.Cells.{IsTrustOf};

use crate::naming::Naming;
use cs_policy::{Entry, TrustEvent, Who};
use pg_book::{Pass, Receipt, Spine};
use pg_parts::{ask_trust, trust_entry};
use pg_trusted::Trusted;
use std::marker::{Model, PhantomData};

/// The trust list of the run and its spine. The entries on the spine lead from the list as it was opened to the list as it
/// is.
#[derive(Drop)]
pub struct TrustCell<B: Naming> {
    trusted: Trusted,
    spine: Spine<Entry>,
    of: PhantomData<B>,
}

impl<B: Naming> Model for TrustCell<B> {
    ghost use Rattle.pg_shared.specs.Cells.{TrustCellNow, IsTrustOf};

    ghost Value = { TrustCellNow };

    ghost view = { λ cell. record { trust = cell.trusted; spine = cell.spine } };

    ghost invariant = { λ cell. IsTrustOf B.plan (record { trust = cell.trusted; spine = cell.spine }) };
}

impl<B: Naming> TrustCell<B> {
    /// The trust list of the run with its spine.
    pub fn new(trusted: Trusted, spine: Spine<Entry>) -> TrustCell<B>
        requires kept { IsTrustOf B.plan (record { trust = trusted; spine = spine }) }
        ensures cell { result ≡ record { trust = trusted; spine = spine } }
    {
        TrustCell {
            trusted,
            spine,
            of: PhantomData,
        }
    }

    /// Makes an event of the trust list, and gives its receipt. The pass is the worker's, and has room for the event.
    pub fn enter(&mut self, pass: &mut Pass<Entry>, who: Who, asked: TrustEvent) -> Receipt<Entry>
        requires pass { IsPassOf B.plan who.worker pass.old }
        requires proper { IsProperTrust (numbers_in B.plan.start) asked }
        requires room { HasRoom (shown B.plan pass.old) who place.Trust (event.Trust asked) }
        ensures asks { Asks (shown B.plan pass.old) who place.Trust (event.Trust asked) result
            (shown B.plan pass.new) }
        ensures reply { result.entry.reply ≡ reply.Trust (trust_step self.old.trust asked).0 }
        ensures after { self.new.trust ≡ (trust_step self.old.trust asked).1 }
        ensures pass { IsPassOf B.plan who.worker pass.new }
    {
        self.spine.meet(pass);
        let reply = ask_trust(&mut self.trusted, asked);
        let entry = trust_entry(who, asked, reply);
        let twin = trust_entry(who, asked, reply);
        self.spine.draw(pass, entry, twin)
    }

    /// The trust list and its spine.
    pub fn into_parts(self) -> (Trusted, Spine<Entry>)
        ensures parts { record { trust = result.0; spine = result.1 } ≡ self }
        ensures kept { IsTrustOf B.plan self }
    {
        let TrustCell {
            trusted,
            spine,
            of: _,
        } = self;
        (trusted, spine)
    }
}
