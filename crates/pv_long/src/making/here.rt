//! The fronts of the place at hand.

ghost use Rattle.std.specs.Prelude.{◌<◌, IfOk, IfSome};
ghost use Rattle.pv_long.specs.Ends.{room_left};

use crate::making::derivations::{Derivation, Derivations, Rule};
use crate::making::ends::Ends;
use crate::making::fronts::{end_of, put};
use crate::making::grain::{Grain, Way};
use pv_bounds::Reach;
use pv_chars::NoMemory;
use pv_rules::HEAVIEST;
use std::alloc::Global;

/// How many costs are told apart at a time.
pub const COSTS: usize = 1_024;

/// A reach of a column from which others may follow, with its derivation.
#[derive(Clone, Copy, Debug)]
pub struct Step {
    pub column: u32,
    pub cost: u32,
    pub end: u32,
    pub number: u32,
}

/// How far a column may go, and how. It goes nowhere where the end is 0.
#[derive(Clone, Copy, Debug)]
struct Offer {
    end: u32,
    rule: Rule,
}

/// An offer of a cost that isn't told apart yet.
#[derive(Clone, Copy, Debug)]
struct Dear {
    column: u32,
    cost: u32,
    offer: Offer,
}

/// What is known of a column at the place at hand.
#[derive(Drop)]
struct Column {
    front: Vec<Reach>,
    /// What is offered and waits, by what it costs beyond `Here::least`.
    offers: Vec<Offer>,
    /// The least cost up to how far a reach may go, among all that was offered.
    whole: u32,
    /// The cuts up to this place have been tried.
    tried: u32,
    /// How far on the place is at which its front is taken as an example.
    shift: u32,
    /// How many reaches of that front have been followed.
    followed: usize,
    /// Whether all cuts are tried, not only near ones and those of the example.
    all: bool,
}

/// The fronts of the place at hand. Offers wait by their cost, and the cheapest is settled first: so
/// a front grows at its end alone.
#[derive(Drop)]
pub struct Here {
    pub place: u32,
    pub grain: Grain,
    /// How many reaches were looked at in all.
    pub work: u64,
    columns: Vec<Column>,
    least: u32,
    /// The columns that wait, by the cost of what is offered beyond `least`.
    waiting: Vec<Vec<u32>>,
    dear: Vec<Dear>,
}

impl Column {
    // Notes an offer of a cost beyond the least, and tells whether the column is to wait for it.
    fn note(&mut self, beyond: usize, offer: Offer) -> Result<bool, NoMemory> {
        for _cost in self.offers.len()..usize::saturating_add(beyond, 1) {
            self.offers.push(Offer {
                end: 0,
                rule: Rule::Token,
            })?;
        }
        let Some(old) = self.offers.get_mut(beyond) else {
            return Ok(false);
        };
        if old.end >= offer.end {
            return Ok(false);
        }
        let is_new = old.end == 0;
        *old = offer;
        Ok(is_new)
    }

    // What was offered at a cost beyond the least, which no longer waits.
    fn take(&mut self, beyond: usize) -> Option<Offer> {
        let old = self.offers.get_mut(beyond)?;
        let offer = *old;
        old.end = 0;
        Some(offer)
    }
}

impl Here {
    /// Fronts without a reach, of so many columns.
    pub fn new(alloc: Global, columns: usize, grain: Grain) -> Result<Here, NoMemory> {
        let mut made = Vec::with_capacity(alloc, columns)?;
        for _column in 0..columns {
            made.push(Column {
                front: Vec::new(alloc),
                offers: Vec::new(alloc),
                whole: HEAVIEST,
                tried: 0,
                shift: 1,
                followed: 0,
                all: false,
            })?;
        }
        Ok(Here {
            place: 0,
            grain,
            work: 0,
            columns: made,
            least: 0,
            waiting: Vec::new(alloc),
            dear: Vec::new(alloc),
        })
    }

    /// Goes to a place, where there is no reach so far. All cuts are tried of all columns where only
    /// near reaches and those up to the end of the list are made, and of those of which they were
    /// tried at the place before where reaches end with windows.
    pub fn go_to(&mut self, place: u32) {
        self.place = place;
        let way = self.grain.way;
        for column in self.columns.iter_mut() {
            column.all = way == Way::Ahead || (column.all && way == Way::Window);
        }
        self.clear();
    }

    /// Takes all reaches off.
    pub fn clear(&mut self) {
        self.least = 0;
        for column in self.columns.iter_mut() {
            column.front.truncate(0);
            column.whole = HEAVIEST;
            column.tried = self.place;
            column.followed = 0;
        }
    }

    /// How far a reach from the place at hand may go.
    pub fn limit(&self) -> u32 {
        self.grain.limit(self.place)
    }

    /// Counts reaches that are looked at.
    pub fn look(&mut self, reaches: usize) {
        let reaches = u64::try_from(reaches).unwrap_or(u64::MAX);
        self.work = u64::saturating_add(self.work, reaches);
    }

    /// Whether all cuts of a column are tried.
    pub fn tries_all(&self, column: u32) -> bool {
        match self.columns.get(column as usize) {
            Some(known) => known.all,
            None => true,
        }
    }

    /// Lets all cuts of a column be tried from the next time on.
    pub fn try_all(&mut self, column: u32) {
        if let Some(known) = self.columns.get_mut(column as usize) {
            known.all = true;
        }
    }

    /// Of how many columns not all cuts are tried.
    pub fn partly_tried(&self) -> usize {
        self.columns.iter().filter(|column| !column.all).count()
    }

    /// The place at which the front of a column is taken as an example.
    pub fn example(&self, column: u32) -> u32 {
        match self.columns.get(column as usize) {
            Some(known) => u32::saturating_add(self.place, known.shift),
            None => self.place,
        }
    }

    /// Takes the front of a column so far on as an example from now on.
    pub fn follow_shift(&mut self, column: u32, shift: u32) {
        if let Some(known) = self.columns.get_mut(column as usize) {
            known.shift = shift;
        }
    }

    /// How many reaches of the example have been followed.
    pub fn followed(&self, column: u32) -> usize {
        match self.columns.get(column as usize) {
            Some(known) => known.followed,
            None => usize::MAX,
        }
    }

    /// One more reach of the example has been followed.
    pub fn follow_one(&mut self, column: u32) {
        if let Some(known) = self.columns.get_mut(column as usize) {
            known.followed = usize::saturating_add(known.followed, 1);
        }
    }

    /// The front of a column.
    pub fn front(&self, column: u32) -> &[Reach] {
        match self.columns.get(column as usize) {
            Some(known) => known.front.as_slice(),
            None => &[],
        }
    }

    /// The least cost that is of no use to a column: at this cost or less it goes as far as it may.
    pub fn whole(&self, column: u32) -> u32 {
        match self.columns.get(column as usize) {
            Some(known) => known.whole,
            None => 0,
        }
    }

    /// The cuts of a column up to a place: the first one that hasn't been tried. All are tried now.
    pub fn try_cuts(&mut self, column: u32, end: u32) -> u32 {
        let Some(known) = self.columns.get_mut(column as usize) else {
            return end;
        };
        let tried = known.tried;
        known.tried = tried.max(end);
        u32::saturating_add(tried, 1)
    }

    /// Offers a reach to a column, which takes it in its turn unless it goes as far at no more cost.
    pub fn offer(
        &mut self,
        alloc: Global,
        column: u32,
        cost: u32,
        end: u32,
        rule: Rule,
    ) -> Result<(), NoMemory> {
        self.work = u64::saturating_add(self.work, 1);
        let beyond = u32::saturating_sub(cost, self.least) as usize;
        let limit = self.limit();
        let end = self.grain.end_of(self.place, end);
        let Some(known) = self.columns.get_mut(column as usize) else {
            return Ok(());
        };
        if cost >= known.whole || end_of(known.front.as_slice()) >= end {
            return Ok(());
        }
        if end >= limit {
            known.whole = cost;
        }
        let offer = Offer { end, rule };
        if beyond >= COSTS {
            self.dear.push(Dear {
                column,
                cost,
                offer,
            })?;
            return Ok(());
        }
        if known.note(beyond, offer)? {
            self.wait(alloc, beyond, column)?;
        }
        Ok(())
    }

    // Lets a column wait for its turn at a cost beyond the least.
    fn wait(&mut self, alloc: Global, beyond: usize, column: u32) -> Result<(), NoMemory> {
        for _cost in self.waiting.len()..usize::saturating_add(beyond, 1) {
            self.waiting.push(Vec::new(alloc))?;
        }
        if let Some(waiting) = self.waiting.get_mut(beyond) {
            waiting.push(column)?;
        }
        Ok(())
    }

    // The columns that waited at a cost beyond the least. These wait now.
    fn swap_waiting(&mut self, beyond: usize, columns: Vec<u32>) -> Vec<u32> {
        match self.waiting.get_mut(beyond) {
            Some(waiting) => std::mem::replace(waiting, columns),
            None => columns,
        }
    }

    /// How many costs beyond the least there are at which columns have waited.
    pub fn costs(&self) -> usize {
        self.waiting.len()
    }

    /// Settles the next offer at a cost beyond the least: the column reaches so far, which is
    /// further than the ends of fronts so far. None where no offer waits any more.
    pub fn settle(
        &mut self,
        alloc: Global,
        beyond: usize,
        derivations: &mut Derivations,
        ends: &mut Ends,
    ) -> Result<Option<Step>, NoMemory>
        ensures { IfOk result (λ step. IfSome step (λ _. room_left ends.new < room_left ends.old)) }
    {
        let cost = u32::saturating_add(self.least, u32::try_from(beyond).unwrap_or(u32::MAX));
        let mut waiting = self.swap_waiting(beyond, Vec::new(alloc));
        while let Some(column) = waiting.pop() {
            if let Some(offer) = self.take(column, beyond) {
                if ends.extend(column, offer.end) {
                    self.swap_waiting(beyond, waiting);
                    return Ok(Some(self.reach(column, cost, offer, derivations)?));
                }
            }
        }
        self.swap_waiting(beyond, waiting);
        Ok(None)
    }

    // What is offered to a column at a cost beyond the least. It no longer waits.
    fn take(&mut self, column: u32, beyond: usize) -> Option<Offer> {
        self.columns.get_mut(column as usize)?.take(beyond)
    }

    // Puts what was offered to a column into its front.
    fn reach(
        &mut self,
        column: u32,
        cost: u32,
        offer: Offer,
        derivations: &mut Derivations,
    ) -> Result<Step, NoMemory> {
        let Offer { end, rule } = offer;
        let via = derivations.add(Derivation { end, rule })?;
        if let Some(known) = self.columns.get_mut(column as usize) {
            if self.grain.is_thin() {
                self.grain.thin(&mut known.front, self.place, end);
            }
            put(&mut known.front, Reach { cost, end, via })?;
        }
        Ok(Step {
            column,
            cost,
            end,
            number: via,
        })
    }

    /// Tells greater costs apart, once no offer waits any more: the least one that is offered,
    /// where it is greater than this one.
    pub fn go_dearer(&mut self, alloc: Global, cost: u32) -> Result<Option<u32>, NoMemory>
        ensures { IfOk result (λ least. IfSome least (λ n. cost < n)) }
    {
        let Some(least) = self.dear.iter().map(|dear| dear.cost).min() else {
            return Ok(None);
        };
        if least <= cost {
            return Ok(None);
        }
        self.offer_dear(alloc, least)?;
        Ok(Some(least))
    }

    // Offers again what was too dear, where this is the least cost.
    fn offer_dear(&mut self, alloc: Global, least: u32) -> Result<(), NoMemory> {
        self.least = least;
        let dear = std::mem::replace(&mut self.dear, Vec::new(alloc));
        for dear in dear.iter() {
            self.again(alloc, dear.column, dear.cost, dear.offer)?;
        }
        Ok(())
    }

    // Offers again what was too dear.
    fn again(
        &mut self,
        alloc: Global,
        column: u32,
        cost: u32,
        offer: Offer,
    ) -> Result<(), NoMemory> {
        let limit = self.limit();
        if let Some(known) = self.columns.get_mut(column as usize) {
            if offer.end >= limit && known.whole == cost {
                known.whole = HEAVIEST;
            }
        }
        self.offer(alloc, column, cost, offer.end, offer.rule)
    }
}
