//! Who issued whom, among the certificates of a bag and the anchors.

ghost use Rattle.std.specs.Prelude.{◌≡◌, ◌<◌, ◌≤◌, ◌+◌, ◌*◌, ℕ, None, false, length};
ghost use Rattle.dv_walks.specs.Graph.{ends_at, leads, limit_of};
ghost use Rattle.dv_x509.specs.View.{view_certificate};
ghost use Rattle.dv_path.specs.Tables.{AddsAnchor, AddsBound, AddsIssuers, IsTable};

use crate::bag::{BAG_LIMIT, Bag};
use crate::issuing::{bound, first_anchor, issues};
use crate::trust::{Anchor, Trust};
use dv_lms::Steps;
use dv_time::Moment;
use dv_walks::Graph;
use dv_x509::Certificate;
use std::sync::ledger::Ledger;

/// Who issued whom: a certificate leads to those that issued it, walks end at one that an anchor issued, and the limit of one
/// is its path length bound. Beside each certificate that an anchor issued stands the place of the first such anchor.
#[derive(Drop)]
pub(crate) struct Table {
    pub(crate) graph: Graph,
    pub(crate) anchors: [u32; BAG_LIMIT],
}

/// The table of a bag and anchors at this moment. For each certificate at most one signature is verified for each member of the
/// bag and for each anchor.
pub(crate) fn issuing_table<L: Ledger>(
    bag: &Bag,
    trust: &Trust,
    when: Moment,
    checks: &mut Steps<L>,
) -> Table
    ensures table { IsTable bag.now trust.now when result.graph result.anchors (length bag.now) }
    ensures steps { checks.new ≤ checks.old + length bag.now * (length bag.now + length trust.now) }
{
    let mut table = Table {
        graph: Graph::new(bag.len()),
        anchors: [0; BAG_LIMIT],
    };
    for position in 0..bag.len() {
        table.enter(bag, trust, position, when, checks);
    }
    table
}

impl Table {
    /// Enters the certificate at a position.
    fn enter<L: Ledger>(
        &mut self,
        bag: &Bag,
        trust: &Trust,
        position: usize,
        when: Moment,
        checks: &mut Steps<L>,
    )
        requires position { position < length bag.now }
        requires place { position < BAG_LIMIT }
        requires table { IsTable bag.now trust.now when self.old.graph self.old.anchors position }
        ensures table { IsTable bag.now trust.now when self.new.graph self.new.anchors (position + 1) }
        ensures steps { checks.new ≤ checks.old + (length bag.now + length trust.now) }
    {
        let certificate = bag.member(position);
        self.add_issuers(bag, position, &certificate, when, checks);
        self.add_anchor(trust.anchors(), position, &certificate, when, checks);
        self.add_bound(position, &certificate);
    }

    /// Lets a position lead to those of the certificates that issued this one.
    fn add_issuers<L: Ledger>(
        &mut self,
        bag: &Bag,
        position: usize,
        certificate: &Certificate<'_>,
        when: Moment,
        checks: &mut Steps<L>,
    )
        requires size { self.old.graph.size ≡ length bag.now }
        requires position { position < length bag.now }
        requires fresh { (issuer : ℕ) → leads self.old.graph position issuer ≡ false }
        ensures added { AddsIssuers bag.now (view_certificate certificate.now) when self.old.graph self.new.graph position (length bag.now) }
        ensures anchors { self.new.anchors ≡ self.old.anchors }
        ensures steps { checks.new ≤ checks.old + length bag.now }
    {
        for place in 0..bag.len() {
            if issues(&bag.member(place), certificate, when, checks) {
                self.graph.lead(position, place);
            }
        }
    }

    /// Lets walks end at a position, where an anchor issued this certificate.
    fn add_anchor<L: Ledger>(
        &mut self,
        anchors: &[Anchor],
        position: usize,
        certificate: &Certificate<'_>,
        when: Moment,
        checks: &mut Steps<L>,
    )
        requires few { length anchors.now ≤ 16 }
        requires position { position < self.old.graph.size }
        requires place { position < BAG_LIMIT }
        requires room { position < length self.old.anchors }
        requires fresh { ends_at self.old.graph position ≡ false }
        ensures added { AddsAnchor anchors.now (view_certificate certificate.now) when self.old.graph self.new.graph self.old.anchors self.new.anchors position }
        ensures steps { checks.new ≤ checks.old + length anchors.now }
    {
        if let Some(place) = first_anchor(anchors, certificate, when, checks) {
            self.graph.end_at(position);
            self.anchors[position] = place as u32;
        }
    }

    /// Gives a position the path length bound of this certificate.
    fn add_bound(&mut self, position: usize, certificate: &Certificate<'_>)
        requires position { position < self.old.graph.size }
        requires fresh { limit_of self.old.graph position ≡ None }
        ensures added { AddsBound (view_certificate certificate.now) self.old.graph self.new.graph position }
        ensures anchors { self.new.anchors ≡ self.old.anchors }
    {
        if let Some(bound) = bound(certificate) {
            self.graph.limit(position, bound as usize);
        }
    }
}
