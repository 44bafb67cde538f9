// A table of first definitions: a name's place follows from its number, and a
// name that finds its place taken goes on to the next. The table is as large as
// the room that is lent.
ghost use Rattle.std.specs.Prelude.{◌≡◌, ◌<◌, length};
ghost use Rattle.labels.specs.Table.{home, next_place, probe_of, table_after, lookup_of};

// A name, and the number of the instruction that follows its first definition. 0
// is no name, and marks a free place: with an Option the table, which is cleared
// for each text, would be half as large again.
#[derive(Clone, Copy)]
pub struct Entry {
    pub name: u64,
    pub number: u64,
}

pub const FREE: Entry = Entry { name: 0, number: 0 };

// How many places a name is looked for at.
const TRIES: usize = 256;

// Where a name stands, or the first free place on its way, or neither within the
// tries.
#[derive(Clone, Copy)]
pub enum Probed {
    Here(usize),
    Free(usize),
    Crowded,
}

// A name's definition: the number of the instruction that follows. `Undefined` is
// told only where the table has them all; `Unknown` names are to be looked for in
// the text.
#[derive(Clone, Copy)]
pub enum Labelled {
    Defined(u64),
    Undefined,
    Unknown,
}

// Where a name is looked for first. Names that differ in few letters get places
// that are far apart.
#[tactic(auto, unfolding(crate::specs::Table::home))]
fn home_of(places: usize, name: u64) -> usize
    requires { 0 < places }
    ensures { result ≡ home places name }
{
    let mixed = name % 4294967291 * 2654435769;
    (mixed / 8589934592 % (places as u64)) as usize
}

fn next_place(places: usize, at: usize) -> usize
    requires { at < places }
    ensures { result ≡ next_place places at }
{
    let next = at + 1;
    if next == places { 0 } else { next }
}

fn probe(table: &[Entry], name: u64) -> Probed
    requires { 0 < length table.now }
    ensures { result ≡ probe_of table.now name }
{
    let mut at = home_of(table.len(), name);
    for _ in 0..TRIES {
        let other = table[at].name;
        if other == name {
            return Probed::Here(at);
        }
        if other == 0 {
            return Probed::Free(at);
        }
        at = next_place(table.len(), at);
    }
    Probed::Crowded
}

// Enters a definition, unless its name has one or the places of the name are
// taken, and answers where the name was looked for.
pub fn define(table: &mut [Entry], name: u64, number: u64) -> Probed
    requires { 0 < length table.old }
    ensures { (result ≡ probe_of table.old name)
        × (table.new ≡ table_after table.old name number) }
{
    let found = probe(table, name);
    if let Probed::Free(at) = found {
        table[at] = Entry { name, number };
    }
    found
}

// A name's first definition.
pub fn lookup(table: &[Entry], name: u64) -> Labelled
    requires { 0 < length table.now }
    ensures { result ≡ lookup_of table.now name }
{
    match probe(table, name) {
        Probed::Here(at) => Labelled::Defined(table[at].number),
        Probed::Free(_) => Labelled::Undefined,
        Probed::Crowded => Labelled::Unknown,
    }
}
