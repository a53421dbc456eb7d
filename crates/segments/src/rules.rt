// The constant table of segments, and the check that reads it.
ghost use Rattle.std.specs.Prelude.{◌≡◌};
ghost use Rattle.segments.specs.Rules.{index_matches, row_matches, edition_matches, in_edition, segment_of, storable, permitted, fetchable};

use super::kinds::{FETCH, is_store};
use layout::control::NEWER;

// Which indices a row is for. The index is a usize so that a row is no whole number of at most 8 bytes: such a one the compiler moves about as a
// number, and takes apart again.
#[derive(Clone, Copy, PartialEq, Eq, Debug)]
pub enum IndexRule {
    Exactly(usize),
    AnyAccount,
}

impl IndexRule {
    // Whether it takes the index, with so many accounts.
    fn takes(self, index: u16, accounts: usize) -> bool
        ensures { result ≡ index_matches self index accounts }
    {
        let index = usize::from(index);
        match self {
            IndexRule::Exactly(k) => index == k,
            IndexRule::AnyAccount => index < accounts,
        }
    }
}

// Which editions have a row.
#[derive(Clone, Copy, PartialEq, Eq, Debug)]
pub enum Editions {
    Both,
    Newer,
}

impl Editions {
    // Whether the edition is one of them.
    fn include(self, edition: usize) -> bool
        ensures { result ≡ edition_matches self edition }
    {
        match self {
            Editions::Both => true,
            Editions::Newer => edition == NEWER,
        }
    }
}

// Which bytes of a segment are present.
#[derive(Clone, Copy, PartialEq, Eq, Debug)]
pub enum Presence {
    Transaction,
    Shadow,
    Program,
    Context,
    Metadata,
    Data,
    Stack,
    Heap,
}

// Where a fetch is allowed in a segment: nowhere, everywhere, or in the account that the older edition runs.
#[derive(Clone, Copy, PartialEq, Eq, Debug)]
pub enum FetchRule {
    Nowhere,
    Everywhere,
    Running,
}

impl FetchRule {
    // Whether it lets a fetch pass. `running` says whether the segment is the data of the account that the older edition runs.
    fn allows(self, running: bool) -> bool
        ensures { result ≡ fetchable self running }
    {
        match self {
            FetchRule::Nowhere => false,
            FetchRule::Everywhere => true,
            FetchRule::Running => running,
        }
    }
}

// Who may store.
#[derive(Clone, Copy, PartialEq, Eq, Debug)]
pub enum StoreRule {
    Never,
    Owner,
    Tag,
}

impl StoreRule {
    // Whether it lets a store pass, but for the tag, which the frame tells. `owned` says whether the account is writable and owned by the
    // current program.
    fn allows(self, owned: bool) -> bool
        ensures { result ≡ storable self owned }
    {
        match self {
            StoreRule::Never => false,
            StoreRule::Owner => owned,
            StoreRule::Tag => true,
        }
    }
}

// A row of the table: a segment type, its indices, the editions that have it, its bytes present, where a fetch is allowed, who may store.
#[derive(Clone, Copy, PartialEq, Eq, Debug)]
pub struct Row {
    pub segment: u8,
    pub index: IndexRule,
    pub editions: Editions,
    pub presence: Presence,
    pub fetch: FetchRule,
    pub store: StoreRule,
}

impl Row {
    // Whether the row is that of the pair.
    fn is_of(&self, segment: u8, index: u16, accounts: usize) -> bool
        ensures { result ≡ row_matches self.now segment index accounts }
    {
        self.segment == segment && self.index.takes(index, accounts)
    }
}

// The rules by type: a new segment type is one row, and one case of presence.
const RULES: [Row; 8] = [
    Row {
        segment: 0,
        index: IndexRule::Exactly(1),
        editions: Editions::Both,
        presence: Presence::Transaction,
        fetch: FetchRule::Nowhere,
        store: StoreRule::Never,
    },
    Row {
        segment: 0,
        index: IndexRule::Exactly(2),
        editions: Editions::Both,
        presence: Presence::Shadow,
        fetch: FetchRule::Nowhere,
        store: StoreRule::Never,
    },
    Row {
        segment: 0,
        index: IndexRule::Exactly(3),
        editions: Editions::Newer,
        presence: Presence::Program,
        fetch: FetchRule::Everywhere,
        store: StoreRule::Never,
    },
    Row {
        segment: 0,
        index: IndexRule::Exactly(4),
        editions: Editions::Both,
        presence: Presence::Context,
        fetch: FetchRule::Nowhere,
        store: StoreRule::Never,
    },
    Row {
        segment: 2,
        index: IndexRule::AnyAccount,
        editions: Editions::Both,
        presence: Presence::Metadata,
        fetch: FetchRule::Nowhere,
        store: StoreRule::Never,
    },
    Row {
        segment: 3,
        index: IndexRule::AnyAccount,
        editions: Editions::Both,
        presence: Presence::Data,
        fetch: FetchRule::Running,
        store: StoreRule::Owner,
    },
    Row {
        segment: 5,
        index: IndexRule::Exactly(0),
        editions: Editions::Both,
        presence: Presence::Stack,
        fetch: FetchRule::Nowhere,
        store: StoreRule::Tag,
    },
    Row {
        segment: 7,
        index: IndexRule::Exactly(0),
        editions: Editions::Both,
        presence: Presence::Heap,
        fetch: FetchRule::Nowhere,
        store: StoreRule::Tag,
    },
];

// The segment of a type and an index in an edition, with so many accounts. The edition is asked of the row that was found: asked in the search, it
// would be asked first, and the search be there twice. By index in a copy of the table: so the search becomes a jump to the row, whose columns are
// constants there. A `find` answers a place in the table, in which each access would read them, and a loop over references goes row by row.
pub fn segment_of(edition: usize, segment: u8, index: u16, accounts: usize) -> Option<Row>
    ensures { result ≡ segment_of edition segment index accounts }
{
    let rows = RULES;
    for i in 0..rows.len() {
        let row = rows[i];
        if row.is_of(segment, index, accounts) {
            return row.editions.include(edition).then_some(row);
        }
    }
    None
}

// Whether the table's fixed, account and fetch rules permit the kind.
#[tactic(auto, unfolding(crate::specs::Rules::permitted))]
pub fn permitted(kind: u8, fetch: FetchRule, store: StoreRule, running: bool, owned: bool) -> bool
    ensures { result ≡ permitted kind fetch store running owned }
{
    if kind == FETCH {
        fetch.allows(running)
    } else if is_store(kind) {
        store.allows(owned)
    } else {
        true
    }
}
