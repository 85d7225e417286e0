// The reading state, and how each item moves it. It holds no amount.
#![tactic(auto)]

ghost use Rattle.std.specs.Prelude.{◌≡◌, ◌-◌, eqb, false, cond, get_or};
ghost use Rattle.items.specs.Parts.{name_in};
ghost use Rattle.columns.specs.Columns.{role_of, root_role};
ghost use Rattle.characters.specs.Says.{says};
ghost use Rattle.refusals.specs.Refusals.{number, refusal_told};
ghost use Rattle.rules.specs.Judged.{said, judged_told, settled};
ghost use Rattle.states.specs.Step.{step_told};
ghost use Rattle.states.specs.Attributes.{there, agree, asks_v, asks_scheme, demands_at, meets, dtd_fits, no_others, attributes_fit, said_in, scheme_refusal, least, value_fixed, dtd_fixed, judge_tag};
ghost use Rattle.states.specs.Act.{act_of};
ghost use Rattle.states.specs.Constraints.{none_seen, withdrawing, changing, unchanging, directed_to, typed, directed, noticed, against, lacking};
ghost use Rattle.states.specs.Moves.{one_more, cut_short, begun, held_of, too_many, no_room, half_originals, against_others, beside_others, values_judged, start_judged, entered, entry_of, started, closed_at, count_refusal, lack_refusal, end_refusal, after_end, moved, kind_told, step_by};

use codes::is_listed;
use columns::{
    AREA_ROLE, BUSINESS_ROLE, BY_LIST, DIRECTION_ROLE, DOC_STATUS_LIST, IN_LIST, INTERVAL_ROLE,
    NO_FORM, NO_SCHEME, OBJECT_ROLE, ORIGINAL_ROLE, PERIOD_FORM, PERIOD_ROLE, POS_ROLE, QTY_ROLE,
    ROOT_ROLE, SERIES_ID_ROLE, SERIES_ROLE, form_of, is_collapsed, role_of, scheme_of,
};
use elements::element_no;
use guideline::{
    DTD_MESSAGE, DTD_RELEASE, DTD_VERSION, Demand, Demands, has_enough, is_fixed, kind_at,
    kind_of_root, rows_of, takes_another,
};
use items::{Item, Tag, name_in};
use refusals::Refusal;
use rules::{BEARING_TYPE, CHANGE_TYPE, Held, Says, judge_value};
use slices::{Span, part};
use structure::{end_after, ends_at_once, start_after};
use tags::Dtd;
use times::quarter_hours;
use trims::trimmed;

#[derive(Clone, Copy)]
pub struct State {
    // 0 before the root
    pub kind: u32,
    // the last row that was started, and whether it is still open
    pub row: usize,
    pub inside: bool,
    // how many series and intervals were started, and how many intervals before this series
    pub series: u32,
    pub intervals: u32,
    pub first: u32,
    // TimePeriodCovered in minutes, its quarter hours, and the last Pos of the Period, 0 before the first
    pub from: u32,
    pub to: u32,
    pub quarters: u32,
    pub last: u32,
    // how many of the five Original elements the series has
    pub originals: u32,
    // what is kept for the rules between the series of a constraint
    pub seen: Seen,
}

#[derive(Clone, Copy)]
pub struct Seen {
    // whether there is a DocStatus
    pub withdrawn: bool,
    // whether a series of BusinessType A77 came, a second one, and whether the present series is one
    pub change: bool,
    pub second: bool,
    pub here: bool,
    // which Direction the first A77 has
    pub direction: u32,
    // whether a series of BusinessType B59 came
    pub bearing: bool,
}

// For how many series and intervals the lent tables have room.
#[derive(Clone, Copy)]
pub struct Room {
    pub series: usize,
    pub intervals: usize,
}

// What an item brings into the tables.
#[derive(Clone, Copy)]
pub enum Entry {
    Nothing,
    Series,
    Identification,
    Object,
    BusinessType,
    Direction,
    Area,
    Interval,
    Position(u32),
    Amount,
}

// Whether an attribute is there. Ruled out: false for a value of no bytes; true for one that no tag has.
pub fn is_there(x: Span) -> bool
    ensures { result ≡ there x }
{
    if x.start == 0 { false } else { true }
}

fn agrees(asked: bool, given: bool) -> bool
    ensures { result ≡ agree asked given }
{
    if asked {
        given
    } else if given {
        false
    } else {
        true
    }
}

// Whether a row has a `v`. Ruled out: true for an element that only holds others; false for one whose form is a code list.
pub fn asks_v(w: usize) -> bool
    ensures { result ≡ asks_v w }
{
    if form_of(w) == NO_FORM { false } else { true }
}

// Whether a row has a codingScheme. Ruled out: true for a row whose `v` alone is a code; false for one of any list.
pub fn asks_scheme(w: usize) -> bool
    ensures { result ≡ asks_scheme w }
{
    if scheme_of(w) == NO_SCHEME {
        false
    } else {
        true
    }
}

fn is_root(w: usize) -> bool
    ensures { result ≡ eqb (role_of w) root_role }
{
    role_of(w) == ROOT_ROLE
}

fn has_no_others(w: usize, others: bool, passable: bool) -> bool
    ensures { result ≡ no_others w others passable }
{
    if others {
        if is_root(w) {
            return passable;
        }
        return false;
    }
    true
}

// What a row asks of the attributes that a root may have.
fn demands_at(kind: u32, w: usize) -> Demands
    ensures { result ≡ demands_at kind w }
{
    if is_root(w) {
        let k = kind_at(kind);
        return k.dtd;
    }
    Demands::none()
}

#[tactic(auto, unfolding(crate::specs::Attributes::meets))]
fn meets_demand(demand: Demand, given: bool) -> bool
    ensures { result ≡ meets demand given }
{
    match demand {
        Demand::NotKnown => agrees(false, given),
        Demand::Asked => agrees(true, given),
        Demand::Optional => true,
    }
}

fn fits_dtd(demands: Demands, d: Dtd) -> bool
    ensures { result ≡ dtd_fits demands d }
{
    let version = d.version;
    let release = d.release;
    let message = d.message;
    if meets_demand(demands.version, is_there(version)) {
        if meets_demand(demands.release, is_there(release)) {
            return meets_demand(demands.message, is_there(message));
        }
    }
    false
}

fn has_attributes(kind: u32, w: usize, t: Tag) -> bool
    ensures { result ≡ attributes_fit kind w t }
{
    let v = t.v;
    let coding = t.coding;
    let dtd = t.dtd;
    if agrees(asks_v(w), is_there(v)) {
        if agrees(asks_scheme(w), is_there(coding)) {
            if fits_dtd(demands_at(kind, w), dtd) {
                return has_no_others(w, t.others, t.passable);
            }
        }
    }
    false
}

// The value of an attribute, without the spaces at its ends where the row drops them.
fn value_of(w: usize, x: Span, s: &[u8]) -> &[u8]
    ensures { says result.now ≡ said_in w x s.now }
{
    let start = x.start;
    let len = x.len;
    let v = part(s, start, len);
    if is_collapsed(w) {
        return trimmed(v);
    }
    v
}

fn scheme_refusal(w: usize, x: Span, s: &[u8]) -> Result<(), Refusal>
    ensures { refusal_told result ≡ scheme_refusal w x s.now }
{
    let k = scheme_of(w);
    if k == NO_SCHEME {
        return Ok(());
    }
    let start = x.start;
    let len = x.len;
    if is_listed(k - BY_LIST, trimmed(part(s, start, len))) {
        return Ok(());
    }
    Err(Refusal::OutsideList)
}

// The smaller of two refusals.
fn least_of(a: Refusal, b: Refusal) -> Refusal
    ensures { number result ≡ least (number a) (number b) }
{
    a.min(b)
}

// Whether an attribute of the root that is there has its fixed value.
fn is_value_fixed(kind: u32, attribute: usize, x: Span, s: &[u8]) -> bool
    ensures { result ≡ value_fixed kind attribute x s.now }
{
    if is_there(x) {
        let start = x.start;
        let len = x.len;
        return is_fixed(kind, attribute, part(s, start, len));
    }
    true
}

fn is_dtd_fixed(kind: u32, d: Dtd, s: &[u8]) -> bool
    ensures { result ≡ dtd_fixed kind d s.now }
{
    let version = d.version;
    let release = d.release;
    let message = d.message;
    if is_value_fixed(kind, DTD_VERSION, version, s) {
        if is_value_fixed(kind, DTD_RELEASE, release, s) {
            return is_value_fixed(kind, DTD_MESSAGE, message, s);
        }
    }
    false
}

fn judge_tag(w: usize, t: Tag, s: &[u8], h: Held) -> Result<Says, Refusal>
    ensures { judged_told result ≡ settled (judge_tag w t h s.now) }
{
    if is_root(w) {
        let dtd = t.dtd;
        if is_dtd_fixed(h.kind, dtd, s) {
            return Ok(Says::NOTHING);
        }
        return Err(Refusal::AgainstForm);
    }
    let form = form_of(w);
    if form == NO_FORM {
        return Ok(Says::NOTHING);
    }
    let v = t.v;
    let coding = t.coding;
    let said = judge_value(form, value_of(w, v, s), h);
    match scheme_refusal(w, coding, s) {
        Ok(()) => said,
        Err(b) => match said {
            Ok(_) => Err(b),
            Err(a) => Err(least_of(a, b)),
        },
    }
}

fn row_at(rows: &[usize], row: usize) -> usize
    ensures { result ≡ get_or rows.now row 0 }
{
    if row < rows.len() { rows[row] } else { 0 }
}

// What an element brings into the tables, by what its row is to the reader.
fn entry_of(role: usize, p: u32) -> Entry
    ensures { result ≡ entry_of role p }
{
    match role {
        SERIES_ROLE => Entry::Series,
        INTERVAL_ROLE => Entry::Interval,
        OBJECT_ROLE => Entry::Object,
        BUSINESS_ROLE => Entry::BusinessType,
        SERIES_ID_ROLE => Entry::Identification,
        POS_ROLE => Entry::Position(p),
        QTY_ROLE => Entry::Amount,
        DIRECTION_ROLE => Entry::Direction,
        AREA_ROLE => Entry::Area,
        _ => Entry::Nothing,
    }
}

// How many intervals of a series were started; its first is after `first` others.
// Ruled out: one less or one more; another number than 0 where `first` is the greater one.
pub fn count_of(intervals: u32, first: u32) -> u32
    ensures { result ≡ intervals - first }
{
    if first <= intervals {
        intervals - first
    } else {
        0
    }
}

// The refusal of a Period's end by the number of its Intervals.
fn count_refusal(kind: u32, quarters: u32, n: u32) -> Result<(), Refusal>
    ensures { refusal_told result ≡ count_refusal kind quarters n }
{
    if has_enough(kind, n as usize) {
        if kind_at(kind).full {
            if n == quarters {
                return Ok(());
            }
            return Err(Refusal::AgainstValue);
        }
        return Ok(());
    }
    Err(Refusal::NotDue)
}

fn one_more(n: u32) -> u32
    ensures { result ≡ one_more n }
{
    if n < 4294967295 { n + 1 } else { n }
}

// Whether an empty tag ends an element that has children to come.
fn is_cut_short(empty: bool, rows: &[usize], row: usize) -> bool
    ensures { result ≡ cut_short empty rows.now row }
{
    if empty {
        if ends_at_once(rows, row) {
            return false;
        }
        return true;
    }
    false
}

// What an item does to the state.
#[derive(Clone, Copy)]
enum Act {
    // an element begins: its tag, and whether that is an empty one
    Opens(Tag, bool),
    Closes,
    Passes,
    Refuses(Refusal),
}

fn act_of(item: Item) -> Act
    ensures { result ≡ act_of item }
{
    match item {
        Item::Start(t) => Act::Opens(t, false),
        Item::Empty(t) => Act::Opens(t, true),
        Item::End(_, _) => Act::Closes,
        Item::Text(white, _) => {
            if white {
                return Act::Passes;
            }
            Act::Refuses(Refusal::NotDue)
        }
        Item::Comment(_) => Act::Passes,
        Item::Unreadable(_) => Act::Refuses(Refusal::UnreadableItem),
    }
}

impl Seen {
    fn none() -> Seen
        ensures { result ≡ none_seen }
    {
        Seen {
            withdrawn: false,
            change: false,
            second: false,
            here: false,
            direction: 0,
            bearing: false,
        }
    }

    // After a BusinessType.
    fn typed(mut self, code: u32) -> Seen
        ensures { result ≡ typed self code }
    {
        if code == CHANGE_TYPE {
            self.second = self.change;
            self.change = true;
            self.here = true;
            return self;
        }
        self.here = false;
        if code == BEARING_TYPE {
            self.bearing = true;
        }
        self
    }

    // After a Direction: that of the first A77 is kept.
    fn directed(mut self, code: u32) -> Seen
        ensures { result ≡ directed self code }
    {
        if self.here {
            if self.second {
                return self;
            }
            self.direction = code;
        }
        self
    }

    // After the start of row w, whose value is this code.
    fn noticed(mut self, w: usize, code: u32) -> Seen
        ensures { result ≡ noticed self w code }
    {
        if form_of(w) == IN_LIST + DOC_STATUS_LIST {
            self.withdrawn = true;
            return self;
        }
        let role = role_of(w);
        if role == BUSINESS_ROLE {
            return self.typed(code);
        }
        if role == DIRECTION_ROLE {
            return self.directed(code);
        }
        self
    }

    // Whether an element is against the series before it, of which there are so many.
    fn is_against(self, series: u32, role: usize, code: u32) -> bool
        ensures { result ≡ against self series role code }
    {
        if role == SERIES_ROLE {
            if self.withdrawn {
                return 0 < series;
            }
            return false;
        }
        if role == BUSINESS_ROLE {
            if self.second {
                return code == CHANGE_TYPE;
            }
            return false;
        }
        if role == DIRECTION_ROLE {
            return self.has_direction(code);
        }
        false
    }

    // Whether the second A77 has the Direction of the first.
    fn has_direction(self, code: u32) -> bool
        ensures { result ≡ cond self.here (cond self.second (eqb code self.direction) false) false }
    {
        if self.here {
            if self.second {
                return code == self.direction;
            }
        }
        false
    }

    // Whether a document with so many series lacks one that a constraint has to have.
    fn is_lacking(self, series: u32) -> bool
        ensures { result ≡ lacking self series }
    {
        if self.withdrawn {
            return false;
        }
        if series == 0 {
            return false;
        }
        if self.change {
            return !self.bearing;
        }
        true
    }
}

impl State {
    // Before the first item: the document as a whole is open.
    // Ruled out: a kind before the root; a count that is not 0.
    pub fn begin() -> State
        ensures { result ≡ begun }
    {
        let seen = Seen::none();
        State {
            kind: 0,
            row: 0,
            inside: true,
            series: 0,
            intervals: 0,
            first: 0,
            from: 0,
            to: 0,
            quarters: 0,
            last: 0,
            originals: 0,
            seen,
        }
    }

    fn held(self, kind: u32) -> Held
        ensures { result ≡ held_of self kind }
    {
        Held {
            kind,
            from: self.from,
            to: self.to,
            quarters: self.quarters,
            last: self.last,
        }
    }

    // Whether an Interval would be one too many for its Period.
    fn has_too_many(self, role: usize, kind: u32) -> bool
        ensures { result ≡ too_many self role kind }
    {
        if role == INTERVAL_ROLE {
            if takes_another(kind, count_of(self.intervals, self.first) as usize) {
                return false;
            }
            return true;
        }
        false
    }

    // Whether a series or Interval finds its table full.
    fn lacks_room(self, role: usize, room: Room) -> bool
        ensures { result ≡ no_room self role room }
    {
        if role == SERIES_ROLE {
            return room.series <= self.series as usize;
        }
        if role == INTERVAL_ROLE {
            return room.intervals <= self.intervals as usize;
        }
        false
    }

    // Whether a Period comes after some of the five Original elements, but not all.
    fn has_half(self, role: usize) -> bool
        ensures { result ≡ half_originals self role }
    {
        if role == PERIOD_ROLE {
            if self.originals == 0 {
                return false;
            }
            if self.originals == 5 {
                return false;
            }
            return true;
        }
        false
    }

    // Whether an element is against the rules between the series of a constraint.
    fn is_against_others(self, kind: u32, role: usize, code: u32) -> bool
        ensures { result ≡ against_others self kind role code }
    {
        if kind_at(kind).constrained {
            let seen = self.seen;
            return seen.is_against(self.series, role, code);
        }
        false
    }

    fn beside_others(self, kind: u32, role: usize, j: Says) -> Result<Says, Refusal>
        ensures { judged_told result ≡ beside_others self kind role (said j) }
    {
        if self.is_against_others(kind, role, j.first) {
            return Err(Refusal::AgainstValue);
        }
        Ok(j)
    }

    fn judge_values(self, kind: u32, w: usize, t: Tag, s: &[u8]) -> Result<Says, Refusal>
        ensures { judged_told result ≡ settled (values_judged self kind w t s.now) }
    {
        let role = role_of(w);
        if self.has_half(role) {
            return Err(Refusal::AgainstValue);
        }
        let j = judge_tag(w, t, s, self.held(kind))?;
        self.beside_others(kind, role, j)
    }

    // The refusal of a start or empty tag whose row is due, and what its value says.
    fn judge_start(
        self,
        kind: u32,
        rows: &[usize],
        row: usize,
        t: Tag,
        s: &[u8],
        empty: bool,
        room: Room,
    ) -> Result<Says, Refusal>
        ensures { judged_told result ≡ settled (start_judged self kind rows.now row t s.now empty room) }
    {
        let w = row_at(rows, row);
        let role = role_of(w);
        if is_cut_short(empty, rows, row) {
            return Err(Refusal::NotDue);
        }
        if self.has_too_many(role, kind) {
            return Err(Refusal::NotDue);
        }
        if self.lacks_room(role, room) {
            return Err(Refusal::TableFull);
        }
        if has_attributes(kind, w, t) {
            return self.judge_values(kind, w, t, s);
        }
        Err(Refusal::WrongAttribute)
    }

    // The state after the start of a row, which w describes.
    fn entered(mut self, kind: u32, row: usize, w: usize, j: Says, within: bool) -> State
        ensures { result ≡ entered self kind row w (said j) within }
    {
        self.kind = kind;
        self.row = row;
        self.inside = within;
        let seen = self.seen;
        self.seen = seen.noticed(w, j.first);
        let role = role_of(w);
        if role == SERIES_ROLE {
            self.series = one_more(self.series);
            self.first = self.intervals;
            self.originals = 0;
            return self;
        }
        if role == PERIOD_ROLE {
            self.last = 0;
            return self;
        }
        if role == INTERVAL_ROLE {
            self.intervals = one_more(self.intervals);
            return self;
        }
        if role == ORIGINAL_ROLE {
            self.originals = one_more(self.originals);
            return self;
        }
        if role == POS_ROLE {
            self.last = j.first;
            return self;
        }
        if form_of(w) == PERIOD_FORM {
            self.from = j.first;
            self.to = j.second;
            self.quarters = quarter_hours(j.first, j.second);
            return self;
        }
        self
    }

    // A start or empty tag whose name has the number `name`.
    fn started(
        self,
        kind: u32,
        rows: &[usize],
        name: usize,
        t: Tag,
        s: &[u8],
        empty: bool,
        room: Room,
    ) -> Result<(State, Entry), Refusal>
        ensures { step_told result ≡ started self kind rows.now name t s.now empty room }
    {
        match start_after(rows, self.row, self.inside, name) {
            Some(r) => {
                let j = self.judge_start(kind, rows, r, t, s, empty, room)?;
                let w = row_at(rows, r);
                Ok((
                    self.entered(kind, r, w, j, !empty),
                    entry_of(role_of(w), j.first),
                ))
            }
            None => Err(Refusal::NotDue),
        }
    }

    // The state after the end of a row.
    fn left(mut self, row: usize) -> State
        ensures { result ≡ closed_at self row }
    {
        self.row = row;
        self.inside = false;
        self
    }

    // The refusal of the root's end by the series that a constraint has to have.
    fn lack_refusal(self) -> Result<(), Refusal>
        ensures { refusal_told result ≡ lack_refusal self }
    {
        if kind_at(self.kind).constrained {
            let seen = self.seen;
            if seen.is_lacking(self.series) {
                return Err(Refusal::AgainstValue);
            }
        }
        Ok(())
    }

    // The refusal of an end tag that closes a row.
    fn end_refusal(self, rows: &[usize], row: usize) -> Result<(), Refusal>
        ensures { refusal_told result ≡ end_refusal self rows.now row }
    {
        let role = role_of(row_at(rows, row));
        if role == PERIOD_ROLE {
            let n = count_of(self.intervals, self.first);
            return count_refusal(self.kind, self.quarters, n);
        }
        if role == ROOT_ROLE {
            return self.lack_refusal();
        }
        Ok(())
    }

    // An end tag whose name has the number `name`.
    fn ended(self, rows: &[usize], name: usize) -> Result<(State, Entry), Refusal>
        ensures { step_told result ≡ after_end self rows.now name }
    {
        match end_after(rows, self.row, self.inside, name) {
            Some(r) => {
                self.end_refusal(rows, r)?;
                Ok((self.left(r), Entry::Nothing))
            }
            None => Err(Refusal::NotDue),
        }
    }

    // An item of a document of this kind; s is the part of the document that begins with it.
    fn moved(
        self,
        kind: u32,
        rows: &[usize],
        item: Item,
        s: &[u8],
        room: Room,
    ) -> Result<(State, Entry), Refusal>
        ensures { step_told result ≡ moved self kind rows.now item s.now room }
    {
        let name = element_no(name_in(item, s));
        match act_of(item) {
            Act::Opens(t, empty) => self.started(kind, rows, name, t, s, empty, room),
            Act::Closes => self.ended(rows, name),
            Act::Passes => Ok((self, Entry::Nothing)),
            Act::Refuses(r) => Err(r),
        }
    }

    // The kind of the document, which the root's own tag tells.
    fn kind_told(self, item: Item, s: &[u8]) -> u32
        ensures { result ≡ kind_told self item s.now }
    {
        if self.kind == 0 {
            return match item {
                Item::Start(t) => kind_of_root(element_no(part(s, 1, t.name))),
                Item::Empty(t) => kind_of_root(element_no(part(s, 1, t.name))),
                Item::End(_, _) => 0,
                Item::Text(_, _) => 0,
                Item::Comment(_) => 0,
                Item::Unreadable(_) => 0,
            };
        }
        self.kind
    }

    // One item moves the state, or is refused. `rows` are the rows of all kinds.
    // Ruled out: an element that is not due taken; a refusal of a larger number where the item has a smaller; a count that a refused item moved.
    pub fn step(
        self,
        rows: &[usize],
        item: Item,
        s: &[u8],
        room: Room,
    ) -> Result<(State, Entry), Refusal>
        ensures { step_told result ≡ step_by self rows.now item s.now room }
    {
        let kind = self.kind_told(item, s);
        self.moved(kind, rows_of(rows, kind), item, s, room)
    }
}
