//! Reserved words and signs, by their positions in the tables of `specs/Words.antt`. Code and definitions name them so.

pub const AND: u8 = 0;

pub const ARRAY: u8 = 1;

pub const BEGIN: u8 = 2;

pub const BY: u8 = 3;

pub const CASE: u8 = 4;

pub const CONST: u8 = 5;

pub const DEFINITION: u8 = 6;

pub const DIV: u8 = 7;

pub const DO: u8 = 8;

pub const ELSE: u8 = 9;

pub const ELSIF: u8 = 10;

pub const END: u8 = 11;

pub const EXIT: u8 = 12;

pub const EXPORT: u8 = 13;

pub const FOR: u8 = 14;

pub const FROM: u8 = 15;

pub const IF: u8 = 16;

pub const IMPLEMENTATION: u8 = 17;

pub const IMPORT: u8 = 18;

pub const IN: u8 = 19;

pub const LOOP: u8 = 20;

pub const MOD: u8 = 21;

pub const MODULE: u8 = 22;

pub const NOT: u8 = 23;

pub const OF: u8 = 24;

pub const OR: u8 = 25;

pub const POINTER: u8 = 26;

pub const PROCEDURE: u8 = 27;

pub const QUALIFIED: u8 = 28;

pub const RECORD: u8 = 29;

pub const REPEAT: u8 = 30;

pub const RETURN: u8 = 31;

pub const SET: u8 = 32;

pub const THEN: u8 = 33;

pub const TO: u8 = 34;

pub const TYPE: u8 = 35;

pub const UNTIL: u8 = 36;

pub const VAR: u8 = 37;

pub const WHILE: u8 = 38;

pub const WITH: u8 = 39;

pub const ALL: u8 = 40;

pub const CONSTRUCTOR: u8 = 41;

pub const DATABASE: u8 = 42;

pub const EACH: u8 = 43;

pub const RELATION: u8 = 44;

pub const SELECTOR: u8 = 45;

pub const SOME: u8 = 46;

pub const TRANSACTION: u8 = 47;

pub const ON: u8 = 48;

pub const DEFAULT: u8 = 49;

pub const PLUS: u8 = 0;

pub const MINUS: u8 = 1;

pub const TIMES: u8 = 2;

pub const SLASH: u8 = 3;

pub const EQUALS: u8 = 4;

pub const HASH: u8 = 5;

pub const UNEQUAL: u8 = 6;

pub const LESS: u8 = 7;

pub const LESS_EQUAL: u8 = 8;

pub const GREATER: u8 = 9;

pub const GREATER_EQUAL: u8 = 10;

pub const AMPERSAND: u8 = 11;

pub const TILDE: u8 = 12;

pub const BECOMES: u8 = 13;

pub const ADD: u8 = 14;

pub const REMOVE: u8 = 15;

pub const REPLACE: u8 = 16;

pub const FULL_STOP: u8 = 17;

pub const ELLIPSIS: u8 = 18;

pub const COMMA: u8 = 19;

pub const SEMICOLON: u8 = 20;

pub const COLON: u8 = 21;

pub const LEFT_PARENTHESIS: u8 = 22;

pub const RIGHT_PARENTHESIS: u8 = 23;

pub const LEFT_BRACKET: u8 = 24;

pub const RIGHT_BRACKET: u8 = 25;

pub const LEFT_BRACE: u8 = 26;

pub const RIGHT_BRACE: u8 = 27;

pub const BAR: u8 = 28;
