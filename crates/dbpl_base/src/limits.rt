//! The limits of the language, of the command and of the store. Each number stands here alone.

// ---- texts

/// The most bytes that one source file may have.
pub const SOURCE_BYTES: u32 = 1_048_576;

/// The most bytes that all source files of a command may have together.
pub const SOURCES_BYTES: u32 = 4_194_304;

/// The most bytes that a text may have which is read: an object keeps a text as long as it may be itself.
pub const TEXT_BYTES: u32 = CODE_BYTES;

/// The most units that a command may have.
pub const UNITS: u8 = 64;

/// How many phrases that count may stand inside one another.
pub const PHRASE_DEPTH: u8 = 64;

/// The greatest number that a token keeps as it is spelt; it stands for each that is not less.
pub const GREATEST_LITERAL: u64 = 4_294_967_296;

// ---- types

/// The most scalars that a value of a type may have.
pub const SCALARS: u64 = 65_536;

/// How deep types may stand inside one another.
pub const TYPE_DEPTH: u32 = 64;

/// How deep relation types may stand inside one another.
pub const RELATION_DEPTH: u32 = 8;

/// How deep selectors and constructors may stand inside one another.
pub const VIEW_DEPTH: u8 = 8;

/// How many nodes of types one check of a program may build.
pub const TYPE_NODES: u32 = 4_194_304;

// ---- runs

/// The most calls that may be open at once.
pub const OPEN_CALLS: u32 = 10_000;

/// The greatest width to which a number is printed.
pub const PRINT_WIDTH: u64 = 1_000;

/// The most instructions that a command may ask for.
pub const GREATEST_STEPS: u64 = 1_000_000_000_000;

/// How many instructions a run has where the command doesn't say.
pub const USUAL_STEPS: u64 = 1_000_000_000;

// ---- code

/// The most objects that one command may link.
pub const LINKED_OBJECTS: u8 = 64;

/// The most objects that a unit may be compiled against.
pub const IMPORTED_OBJECTS: u8 = 63;

/// The most bytes that an object or an image may have.
pub const CODE_BYTES: u32 = 67_108_864;

// ---- the store

/// The most bytes that the name of a relation may have: its module's, a full stop, and its own.
pub const RELATION_NAME_BYTES: usize = 128;

/// The most bytes that a key may have.
pub const KEY_BYTES: u64 = 255;

/// The most bytes that a record may have, as it is kept.
pub const RECORD_BYTES: u64 = 1_048_576;

/// How many bytes a page has.
pub const PAGE_BYTES: usize = 4_096;

/// The most pages that a store may have.
pub const PAGES: u32 = 2_147_483_648;

/// A log that is longer is shortened after a commit.
pub const LONG_LOG_BYTES: u64 = 16_777_216;

/// The most rounds of a trial.
pub const TRIAL_ROUNDS: u32 = 100_000;
