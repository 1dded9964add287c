//! What holds of each ring.

ghost use Rattle.std.specs.Prelude.{ℕ};
ghost use Rattle.ring_model.specs.Laws.{ComputedIsRoute, SettledHasOneAtEach, LookupFinds, LookupIsShort, FewStopsLeaveCovered, RoundMendsStops, JoinFindsList, RoundMendsJoin, OwnersHold, OthersDrop, BlockStays};

/// What has a place on the circle.
pub trait Placed {
    /// The place.
    ghost place: { Self → ℕ };
}

/// Laws of look-ups: what a node computes is a route where it knows one node at a place, as in a settled ring, and by
/// routes they find the owners in a covered ring, and in a settled one soon.
pub fn lookup_laws<P: Placed>()
    ensures routes { ComputedIsRoute P.place }
    ensures places { SettledHasOneAtEach P.place }
    ensures finds { LookupFinds P.place }
    ensures short { LookupIsShort P.place }
{}

/// Laws of change: after few stops a ring is covered, a joining node finds its list, and a round makes the ring
/// settled again.
pub fn round_laws<P: Placed>()
    ensures covered { FewStopsLeaveCovered P.place }
    ensures stops { RoundMendsStops P.place }
    ensures list { JoinFindsList P.place }
    ensures join { RoundMendsJoin P.place }
{}

/// Laws of blocks: after the last part of a round exactly the owners hold them, and until enough nodes stop an owner
/// does.
pub fn block_laws<P: Placed>()
    ensures hold { OwnersHold P }
    ensures drop { OthersDrop P }
    ensures stay { BlockStays P.place }
{}
