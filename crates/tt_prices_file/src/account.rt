//! What the groups and the rents of a file add up to.

use crate::fault::PricesFault;
use crate::least::find_least;
use crate::prices::PriceTable;
use crate::rents::RentTable;
use crate::targets::Targets;
use std::alloc::{AllocError, Global};
use tt_groups::PricedGroup;
use tt_instance::Instance;
use tt_prices_check::PricedWork;
use tt_prices_text::Rent;
use tt_text::Stop;

/// What the groups and the rents of a file so far claim and pay.
#[derive(Drop)]
pub struct Account {
    pub targets: Targets,
    pub prices: PriceTable,
    pub rents: RentTable,
    /// The number of groups so far.
    pub groups: u32,
    /// What they pay at least, added up.
    pub total: i128,
    /// The work that is left for further groups.
    pub work: PricedWork,
}

impl Account {
    ghost use Rattle.std.specs.Prelude.{◌≡◌, ◌<◌, ◌≤◌, ◌++◌, ◌∷◌, [], List, true, false, IfOk, OnOk};
    ghost use Rattle.tt_text.specs.Stops.{IfFault, is_read_failed};
    ghost use Rattle.tt_groups.specs.Rows.{group_of};
    ghost use Rattle.tt_groups.specs.declared.price.TheConstants.{MAX_SCALE};
    ghost use Rattle.tt_prices_text.specs.Parts as parts;
    ghost use Rattle.tt_prices_text.specs.Reading.{Part, GroupPart, RentPart};
    ghost use Rattle.tt_prices_text.specs.Parts.{IsGroup, IsRoomRents};
    ghost use Rattle.tt_prices_text.specs.declared.header.Header.{Header};
    ghost use Rattle.tt_proof_check.specs.Streams.{sizes_of};
    ghost use Rattle.tt_prices_file.specs.Files as files;
    ghost use Rattle.tt_prices_file.specs.Inner.Accounts.{IsAccountOf, ExplainsGroup, ExplainsRent};

    /// Creates the account of no groups and no rents, for room costs at so many units a point.
    pub fn new(
        alloc: Global,
        instance: &Instance<'_>,
        room_scale: u32,
    ) -> Result<Account, AllocError>
        ensures { IfOk result (λ a. (h : Header) → files.room_scale h ≡ room_scale → IsAccountOf instance.now h [] a) }
    {
        Ok(Account {
            targets: Targets::new(alloc),
            prices: PriceTable::new(alloc, instance)?,
            rents: RentTable::new(alloc, instance, room_scale)?,
            groups: 0,
            total: 0,
            work: PricedWork::new(),
        })
    }

    /// Adds a group, unless one of its targets is listed already or it isn't found what it pays at least.
    pub fn add_group(
        &mut self,
        alloc: Global,
        instance: &Instance<'_>,
        scale: u32,
        group: &PricedGroup,
    ) -> Result<(), Stop<PricesFault>>
        requires group { IsGroup (sizes_of instance.now) (parts.group_of group.now) }
        requires periods { group.now.periods ≡ instance.now.periods }
        requires scale { scale ≤ MAX_SCALE }
        requires room { self.old.groups < u32.MAX }
        requires account { (h : Header) × (xs : List Part) × IsAccountOf instance.now h xs self.old }
        ensures added { OnOk result ((h : Header) (xs : List Part) → h.scale ≡ scale → IsAccountOf instance.now h xs self.old →
            IsAccountOf instance.now h (xs ++ GroupPart (parts.group_of group.now) ∷ []) self.new) }
        ensures fault { IfFault result (ExplainsGroup instance.now scale self.old (group_of group.now)) }
        ensures unread { is_read_failed result ≡ false }
    {
        // Brings the instance's limits into the proof.
        prove!(instance.days() > 0);
        let number = self.groups;
        if self.targets.has_any_of(group) {
            return Err(Stop::Fault(PricesFault::ClaimedTwice(number)));
        }
        let least = find_least(alloc, instance, group, scale, number, &mut self.work)?;
        self.targets.add(group)?;
        self.prices.add_group(instance, group);
        self.total += i128::from(least);
        self.groups = number + 1;
        Ok(())
    }

    /// Adds the rents of a room, unless the room has some already.
    pub fn add_rent(
        &mut self,
        instance: &Instance<'_>,
        rent: &Rent,
    ) -> Result<(), Stop<PricesFault>>
        requires rent { IsRoomRents (sizes_of instance.now) (parts.rents_of rent.now) }
        requires account { (h : Header) × (xs : List Part) × IsAccountOf instance.now h xs self.old }
        ensures added { OnOk result ((h : Header) (xs : List Part) → IsAccountOf instance.now h xs self.old →
            IsAccountOf instance.now h (xs ++ RentPart (parts.rents_of rent.now) ∷ []) self.new) }
        ensures groups { OnOk result (self.new.groups ≡ self.old.groups) }
        ensures fault { IfFault result (ExplainsRent self.old rent.now.room) }
        ensures unread { is_read_failed result ≡ false }
    {
        if self.rents.has_room(rent.room) {
            return Err(Stop::Fault(PricesFault::RentedTwice(rent.room)));
        }
        self.rents.add(instance, rent)?;
        Ok(())
    }
}
