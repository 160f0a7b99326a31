// The plain types of the port: what callers hand over and what calls answer. specs/ defines the machine over them.
#![tactic(auto)]

mod answers;
mod host;

// An address of the heap; 0 means none, as in the words of the tables, so it is no Option.
#[derive(Clone, Copy, Debug, PartialEq, Eq)]
pub struct Address(pub usize);

// A block, by its number from 0. Only base + number × block size makes it an address.
#[derive(Clone, Copy, Debug, PartialEq, Eq)]
pub struct Block(pub usize);

// How many rows a class table may have (02, R-5).
pub const ROWS: usize = 48;

// A row of a customer's class table: counts of words from `from` to `to` get a cell of `cell` words (02, R-5).
#[derive(Clone, Copy)]
pub struct Row {
    pub from: usize,
    pub to: usize,
    pub cell: usize,
}

// The VM's constants and the place of the heap. Field names are single words, since specs/ reads them too.
#[derive(Clone, Copy)]
pub struct Params {
    // the address of the heap's first byte
    pub base: usize,
    // the block size
    pub bytes: usize,
    // how many blocks there are
    pub blocks: usize,
    // MIN_ALIGNMENT and MAX_ALIGNMENT
    pub min: usize,
    pub max: usize,
    // USE_ALLOCATION_OFFSET
    pub offsets: bool,
    // UNIFIED_OBJECT_REFERENCE_ADDRESS
    pub unified: bool,
    // L, OBJECT_REF_OFFSET_LOWER_BOUND
    pub lower: i64,
    // blocks are swept at the end of a collection (02, R-8), not when an alloc comes to them
    pub eager: bool,
    // the rows of the class table: row n stands at n − 1, and those from `count` on are not read
    pub rows: [Row; ROWS],
    // how many rows are given; 0 for the classes of document 01. An array and a count, since nothing comes from the heap
    pub count: usize,
}

// Document 01's bounds on parameters and requests. MAX_BYTES is the largest power of two that it asks for, too; the heap ends at HEAP_END at
// the latest.
pub const MIN_BYTES: usize = 4096;

pub const MAX_BYTES: usize = 65536;

pub const MAX_BLOCKS: usize = 1024;

pub const MAX_ALIGN: usize = 64;

pub const MAX_OFFSET: usize = 65536;

pub const HEAP_END: usize = 1 << 47;

// Numbers of the layout: specs/Params.antt has the same names, in small letters.
//
// How lists are numbered: 30 sets of 49 bins. An owner has three sets, and is named by its first.
pub const BINS: usize = 49;

pub const LAST_BIN: usize = 48;

pub const SETS: usize = 30;

pub const LISTS: usize = 1470;

pub const ABANDONED: usize = 24;

pub const IN_GC: usize = 27;

// Holders are counted from 1. Those that release, the parts, are the holders and the shared part at 0.
pub const HOLDERS: usize = 8;

pub const PARTS: usize = 9;

// Where the lent words have what: firsts, lasts, the phase, the bound holders, the released marks, and behind these, the head words,
// the tables of the blocks, a word for each block in each.
pub const PHASE_WORD: usize = 2940;

pub const BOUND_WORDS: usize = 2941;

pub const RELEASED_WORDS: usize = 2949;

pub const HEAD_WORDS: usize = 2958;

pub const BLOCK_TABLES: usize = 7;

// The cell sizes of bins 0 to 48, in words: each next four twice the four before.
pub const CLASS_WORDS: [usize; BINS] = [
    1, 1, 2, 3, 4, 5, 6, 7, 8, 10, 12, 14, 16, 20, 24, 28, 32, 40, 48, 56, 64, 80, 96, 112, 128,
    160, 192, 224, 256, 320, 384, 448, 512, 640, 768, 896, 1024, 1280, 1536, 1792, 2048, 2560,
    3072, 3584, 4096, 5120, 6144, 7168, 8192,
];

// A walk along a block's free chain: the cell at which it stands, the block's cell size, and how many cells it may still meet.
#[derive(Clone, Copy)]
pub struct ChainWalk {
    pub block: Block,
    pub at: Address,
    pub size: usize,
    pub left: usize,
}

// What an alloc asks for. Its offer stands in place of `Space::acquire`: none, or a block to use as new.
#[derive(Clone, Copy)]
pub struct Request {
    pub size: usize,
    pub align: usize,
    pub offset: usize,
    pub offer: Option<Block>,
}

// What is asked of the space after set-up: a call of the machine, by value.
#[derive(Clone, Copy)]
pub enum Ask {
    Bind(usize),
    Destroy(usize),
    Alloc { holder: usize, request: Request },
    Prepare,
    Mark { place: usize, block: usize },
    Release(usize),
    SharedRelease,
}

// Document 01's refusals, in the order in which they are tested, and 02's BadClasses, tested right after BadSetup.
#[derive(Clone, Copy, Debug, PartialEq, Eq)]
pub enum Refusal {
    BadSetup,
    BadTables,
    WrongPhase,
    BadHolder,
    BadRequest,
    TooBig,
    BadOffer,
    BadLink,
    Exhausted,
    BadObject,
    BadLine,
    BadClasses,
}

// An alloc that was served: where the object may start, its cell's size, whether the offer was used, how many blocks were swept. The flag
// is one of 01's four answers, and says nothing of the others.
#[derive(Clone, Copy, Debug, PartialEq, Eq)]
pub struct Served {
    pub address: Address,
    pub cell_size: usize,
    pub offer_used: bool,
    pub swept: usize,
}

// An alloc that was not: where no cell was found and none offered, how many blocks were swept (02, R-12); `Refused` holds the other
// refusals.
#[derive(Clone, Copy, Debug, PartialEq, Eq)]
pub enum Unserved {
    Exhausted { swept: usize },
    Refused(Refusal),
}

// What release and shared release answer: how many blocks it made Unallocated, how many it merged from in-gc, and how many it swept.
#[derive(Clone, Copy, Debug, PartialEq, Eq)]
pub struct Released {
    pub blocks: usize,
    pub merged: usize,
    pub swept: usize,
}

// What the check of a class table says: accepted, the least bad count of words, or the first unfit row (02, R-5). No Result: each of the
// three is an answer, and what the check refuses is another thing.
#[derive(Clone, Copy, Debug, PartialEq, Eq)]
pub enum Verdict {
    Accepted,
    BadCount(usize),
    BadRow(usize),
}

// What any call says, as numbers: 0 or its refusal's number, and the answer's numbers in order, zeros after. No Result: C is told these
// numbers, and the programs print them.
#[derive(Clone, Copy, Debug, Default, PartialEq, Eq)]
pub struct Said {
    pub number: usize,
    pub first: usize,
    pub second: usize,
    pub third: usize,
    pub fourth: usize,
}

// How many these numbers are: the words of an answer in a row of calls (02).
pub const ANSWER_WORDS: usize = 5;

// The parameters as a C host gives them: each as a number, a flag as 0 or 1.
#[derive(Clone, Copy)]
pub struct Given {
    pub base: usize,
    pub bytes: usize,
    pub blocks: usize,
    pub min: usize,
    pub max: usize,
    pub offsets: usize,
    pub unified: usize,
    pub lower: i64,
    pub eager: usize,
}
