//! Comparisons of records and answers. None takes memory.
ghost use Rattle.std.specs.Prelude.{◌≡◌, ◌↔◌, IsTrue, option_map};
ghost use Rattle.spec_world.specs.Questions.{the_header, the_children, the_contents, the_defines, the_slot, the_verbs, the_task, the_waiting, the_link, the_readers, the_connections, the_connected, the_greatest, the_ending};
ghost use Rattle.view.specs.Meanings.{answer_of};

use crate::header::Header;
use crate::link::{Link, Programming};
use crate::lists::{Lines, Names, Objects, Players};
use crate::object::Object;
use crate::question::Answer;
use crate::slot::Slot;
use crate::verb::{Verb, Verbs};
use moo_task::task::Task;
use moo_value::text::Text;

impl Header {
    /// Whether two headers are the same.
    pub fn same(&self, other: &Header) -> bool
        ensures { IsTrue result ↔ self.now ≡ other.now }
    {
        same_text(&self.name, &other.name)
            && self.owner == other.owner
            && self.parent == other.parent
            && self.location == other.location
            && same_flags(self, other)
    }
}

fn same_flags(a: &Header, b: &Header) -> bool
    ensures { IsTrue result ↔ (a.now.is_player ≡ b.now.is_player) × (a.now.is_programmer ≡ b.now.is_programmer) × (a.now.is_wizard ≡ b.now.is_wizard)
        × (a.now.readable ≡ b.now.readable) × (a.now.writable ≡ b.now.writable) × (a.now.fertile ≡ b.now.fertile) }
{
    a.is_player == b.is_player
        && a.is_programmer == b.is_programmer
        && a.is_wizard == b.is_wizard
        && a.readable == b.readable
        && a.writable == b.writable
        && a.fertile == b.fertile
}

impl Slot {
    /// Whether two slots are the same, the case of letters in their values counted.
    pub fn same(&self, other: &Slot) -> bool
        ensures { IsTrue result ↔ self.now ≡ other.now }
    {
        self.content.same(&other.content)
            && self.owner == other.owner
            && self.readable == other.readable
            && self.writable == other.writable
            && self.changeable == other.changeable
    }
}

fn same_slot(a: Option<&Slot>, b: &Option<Slot>) -> bool
    ensures { IsTrue result ↔ option_map (λ x. x.now) a.entry ≡ b.now }
{
    match (a, b) {
        (Some(x), Some(y)) => x.same(y),
        (None, None) => true,
        _ => false,
    }
}

impl Link {
    /// Whether two links are the same.
    pub fn same(&self, other: &Link) -> bool
        ensures { IsTrue result ↔ self.now ≡ other.now }
    {
        self.person == other.person && same_programming(&self.programming, &other.programming)
    }
}

fn same_programming(a: &Option<Programming>, b: &Option<Programming>) -> bool
    ensures { IsTrue result ↔ a.now ≡ b.now }
{
    match (a, b) {
        (Some(x), Some(y)) => x.same(y),
        (None, None) => true,
        _ => false,
    }
}

impl Programming {
    /// Whether two programs that are typed are the same.
    pub fn same(&self, other: &Programming) -> bool
        ensures { IsTrue result ↔ self.now ≡ other.now }
    {
        self.object == other.object
            && same_text(&self.verb, &other.verb)
            && same_lines(&self.lines, &other.lines)
    }
}

fn same_lines(a: &Option<Lines>, b: &Option<Lines>) -> bool
    ensures { IsTrue result ↔ a.now ≡ b.now }
{
    match (a, b) {
        (Some(x), Some(y)) => x.same(y),
        (None, None) => true,
        _ => false,
    }
}

impl Verb {
    /// Whether two verbs are the same.
    pub fn same(&self, other: &Verb) -> bool
        ensures { IsTrue result ↔ self.now ≡ other.now }
    {
        same_text(&self.names, &other.names)
            && self.owner == other.owner
            && same_bits(self, other)
            && same_specifier(self, other)
            && self.program.same(&other.program)
    }
}

fn same_bits(a: &Verb, b: &Verb) -> bool
    ensures { IsTrue result ↔ (a.now.readable ≡ b.now.readable) × (a.now.writable ≡ b.now.writable)
        × (a.now.callable ≡ b.now.callable) × (a.now.debug ≡ b.now.debug) }
{
    a.readable == b.readable
        && a.writable == b.writable
        && a.callable == b.callable
        && a.debug == b.debug
}

fn same_specifier(a: &Verb, b: &Verb) -> bool
    ensures { IsTrue result ↔ (a.now.direct ≡ b.now.direct) × (a.now.preposition ≡ b.now.preposition) × (a.now.indirect ≡ b.now.indirect) }
{
    a.direct == b.direct && a.preposition == b.preposition && a.indirect == b.indirect
}

impl Verbs {
    /// Whether two lists of verbs are the same.
    pub fn same(&self, other: &Verbs) -> bool
        ensures { IsTrue result ↔ self.now ≡ other.now }
    {
        same_verbs(self.as_slice(), other.as_slice())
    }
}

fn same_verbs(xs: &[Verb], ys: &[Verb]) -> bool
    ensures { IsTrue result ↔ xs.now ≡ ys.now }
{
    if xs.len() != ys.len() {
        return false;
    }
    for i in 0..xs.len() {
        if !xs[i].same(&ys[i]) {
            return false;
        }
    }
    true
}

impl Object {
    /// Whether two objects are the same.
    #[tactic(auto, using(crate::proofs::Wholes::same_objects))]
    pub fn same(&self, other: &Object) -> bool
        ensures { IsTrue result ↔ self.now ≡ other.now }
    {
        self.header().same(other.header())
            && same_lists(self, other)
            && same_slots(&self.slots().entries, &other.slots().entries)
            && self.verbs().same(other.verbs())
    }
}

fn same_lists(a: &Object, b: &Object) -> bool
    ensures { IsTrue result ↔ (a.now.children ≡ b.now.children) × (a.now.contents ≡ b.now.contents) × (a.now.defines ≡ b.now.defines) }
{
    a.children().same(b.children())
        && a.contents().same(b.contents())
        && a.defines().same(b.defines())
}

impl Objects {
    /// Whether two lists of objects are the same.
    pub fn same(&self, other: &Objects) -> bool
        ensures { IsTrue result ↔ self.now ≡ other.now }
    {
        same_numbers(self.as_slice(), other.as_slice())
    }
}

impl Names {
    /// Whether two lists of names are the same, the case of letters counted.
    pub fn same(&self, other: &Names) -> bool
        ensures { IsTrue result ↔ self.now ≡ other.now }
    {
        same_names(self.as_slice(), other.as_slice())
    }
}

impl Players {
    /// Whether two lists of players are the same.
    pub fn same(&self, other: &Players) -> bool
        ensures { IsTrue result ↔ self.now ≡ other.now }
    {
        same_pairs(self.as_slice(), other.as_slice())
    }
}

fn same_pairs(xs: &[(i32, i32)], ys: &[(i32, i32)]) -> bool
    ensures { IsTrue result ↔ xs.now ≡ ys.now }
{
    if xs.len() != ys.len() {
        return false;
    }
    for i in 0..xs.len() {
        if !same_pair(xs[i], ys[i]) {
            return false;
        }
    }
    true
}

fn same_pair(a: (i32, i32), b: (i32, i32)) -> bool
    ensures { IsTrue result ↔ a ≡ b }
{
    a.0 == b.0 && a.1 == b.1
}

fn same_numbers(xs: &[i32], ys: &[i32]) -> bool
    ensures { IsTrue result ↔ xs.now ≡ ys.now }
{
    xs == ys
}

fn same_text(a: &Text, b: &Text) -> bool
    ensures { IsTrue result ↔ a.now ≡ b.now }
{
    a.as_str() == b.as_str()
}

fn same_names(xs: &[Text], ys: &[Text]) -> bool
    ensures { IsTrue result ↔ xs.now ≡ ys.now }
{
    if xs.len() != ys.len() {
        return false;
    }
    for i in 0..xs.len() {
        if !same_text(&xs[i], &ys[i]) {
            return false;
        }
    }
    true
}

fn same_slots(xs: &[(Text, Slot)], ys: &[(Text, Slot)]) -> bool
    ensures { IsTrue result ↔ xs.now ≡ ys.now }
{
    if xs.len() != ys.len() {
        return false;
    }
    for i in 0..xs.len() {
        if !same_entry(&xs[i], &ys[i]) {
            return false;
        }
    }
    true
}

fn same_entry(a: &(Text, Slot), b: &(Text, Slot)) -> bool
    ensures { IsTrue result ↔ a.now ≡ b.now }
{
    same_text(&a.0, &b.0) && a.1.same(&b.1)
}

impl Answer {
    /// Whether the answer is this header, or that there is none.
    pub fn is_header(&self, found: Option<&Header>) -> bool
        ensures { IsTrue result ↔ the_header (option_map (λ x. x.now) found.entry) ≡ answer_of self.now }
    {
        match (found, self) {
            (Some(a), Answer::Header(Some(b))) => a.same(b),
            (None, Answer::Header(None)) => true,
            _ => false,
        }
    }

    /// Whether the answer is these children, or that there is no such object.
    pub fn is_children(&self, found: Option<&Objects>) -> bool
        ensures { IsTrue result ↔ the_children (option_map (λ x. x.now) found.entry) ≡ answer_of self.now }
    {
        match (found, self) {
            (Some(a), Answer::Children(Some(b))) => a.same(b),
            (None, Answer::Children(None)) => true,
            _ => false,
        }
    }

    /// Whether the answer is these contents, or that there is no such object.
    pub fn is_contents(&self, found: Option<&Objects>) -> bool
        ensures { IsTrue result ↔ the_contents (option_map (λ x. x.now) found.entry) ≡ answer_of self.now }
    {
        match (found, self) {
            (Some(a), Answer::Contents(Some(b))) => a.same(b),
            (None, Answer::Contents(None)) => true,
            _ => false,
        }
    }

    /// Whether the answer is these names of properties, or that there is no such object.
    pub fn is_defines(&self, found: Option<&Names>) -> bool
        ensures { IsTrue result ↔ the_defines (option_map (λ x. x.now) found.entry) ≡ answer_of self.now }
    {
        match (found, self) {
            (Some(a), Answer::Defines(Some(b))) => a.same(b),
            (None, Answer::Defines(None)) => true,
            _ => false,
        }
    }

    /// Whether the answer is this slot, or that there is none on the object, or no such object.
    pub fn is_slot(&self, found: Option<Option<&Slot>>) -> bool
        ensures { IsTrue result ↔ the_slot (option_map (λ s. option_map (λ x. x.now) s) found.entry) ≡ answer_of self.now }
    {
        match (found, self) {
            (Some(a), Answer::Slot(Some(b))) => same_slot(a, b),
            (None, Answer::Slot(None)) => true,
            _ => false,
        }
    }

    /// Whether the answer is these verbs, or that there are none.
    pub fn is_verbs(&self, found: Option<&Verbs>) -> bool
        ensures { IsTrue result ↔ the_verbs (option_map (λ x. x.now) found.entry) ≡ answer_of self.now }
    {
        match (found, self) {
            (Some(a), Answer::Verbs(Some(b))) => a.same(b),
            (None, Answer::Verbs(None)) => true,
            _ => false,
        }
    }

    /// Whether the answer is this task, or that there is none.
    pub fn is_task(&self, found: Option<&Task>) -> bool
        ensures { IsTrue result ↔ the_task (option_map (λ x. x.now) found.entry) ≡ answer_of self.now }
    {
        match (found, self) {
            (Some(a), Answer::Task(Some(b))) => a.same(b),
            (None, Answer::Task(None)) => true,
            _ => false,
        }
    }

    /// Whether the answer is these ids of tasks that wait.
    pub fn is_waiting(&self, ids: &[i32]) -> bool
        ensures { IsTrue result ↔ the_waiting ids.now ≡ answer_of self.now }
    {
        match self {
            Answer::Waiting(others) => same_numbers(ids, others.as_slice()),
            _ => false,
        }
    }

    /// Whether the answer is this link, or that there is none.
    pub fn is_link(&self, found: Option<&Link>) -> bool
        ensures { IsTrue result ↔ the_link (option_map (λ x. x.now) found.entry) ≡ answer_of self.now }
    {
        match (found, self) {
            (Some(a), Answer::Link(Some(b))) => a.same(b),
            (None, Answer::Link(None)) => true,
            _ => false,
        }
    }

    /// Whether the answer is these ids of tasks that read.
    pub fn is_readers(&self, ids: &[i32]) -> bool
        ensures { IsTrue result ↔ the_readers ids.now ≡ answer_of self.now }
    {
        match self {
            Answer::Readers(others) => same_numbers(ids, others.as_slice()),
            _ => false,
        }
    }

    /// Whether the answer is these connections of a person.
    pub fn is_connections(&self, connections: &[i32]) -> bool
        ensures { IsTrue result ↔ the_connections connections.now ≡ answer_of self.now }
    {
        match self {
            Answer::Connections(others) => same_numbers(connections, others.as_slice()),
            _ => false,
        }
    }

    /// Whether the answer is these connections with their players.
    pub fn is_connected(&self, players: &[(i32, i32)]) -> bool
        ensures { IsTrue result ↔ the_connected players.now ≡ answer_of self.now }
    {
        match self {
            Answer::Connected(others) => same_pairs(players, others.as_slice()),
            _ => false,
        }
    }

    /// Whether the answer is this greatest number.
    pub fn is_greatest(&self, greatest: i32) -> bool
        ensures { IsTrue result ↔ the_greatest greatest ≡ answer_of self.now }
    {
        match self {
            Answer::Greatest(other) => greatest == *other,
            _ => false,
        }
    }

    /// Whether the answer is this ending flag.
    pub fn is_ending(&self, ending: bool) -> bool
        ensures { IsTrue result ↔ the_ending ending ≡ answer_of self.now }
    {
        match self {
            Answer::Ending(other) => ending == *other,
            _ => false,
        }
    }

    /// Whether two answers are the same.
    pub fn same(&self, other: &Answer) -> bool
        ensures { IsTrue result ↔ answer_of self.now ≡ answer_of other.now }
    {
        match self {
            Answer::Header(found) => other.is_header(found.as_ref()),
            Answer::Children(found) => other.is_children(found.as_ref()),
            Answer::Contents(found) => other.is_contents(found.as_ref()),
            Answer::Defines(found) => other.is_defines(found.as_ref()),
            Answer::Slot(found) => other.is_slot(found.as_ref().map(|slot| slot.as_ref())),
            Answer::Verbs(found) => other.is_verbs(found.as_ref()),
            Answer::Task(found) => other.is_task(found.as_ref()),
            Answer::Waiting(ids) => other.is_waiting(ids.as_slice()),
            Answer::Link(found) => other.is_link(found.as_ref()),
            Answer::Readers(ids) => other.is_readers(ids.as_slice()),
            Answer::Connections(connections) => other.is_connections(connections.as_slice()),
            Answer::Connected(players) => other.is_connected(players.as_slice()),
            Answer::Greatest(greatest) => other.is_greatest(*greatest),
            Answer::Ending(ending) => other.is_ending(*ending),
        }
    }
}
