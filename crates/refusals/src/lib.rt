#![tactic(auto)]

// The refusal numbers of document 01 (Refusal numbers) and document 02 (from 23 on), each with its words there. 0 is accepted, and no fault.

// bytes end inside something unfinished or before the root
pub const CUT_SHORT: u8 = 1;

// not well formed
pub const NOT_WELL_FORMED: u8 = 2;

// XML form not carried; Info too deep; over 16 attributes
pub const FORM_NOT_CARRIED: u8 = 3;

// over 16 MiB
pub const TOO_LONG: u8 = 4;

// element unknown here, missing or twice
pub const WRONG_ELEMENT: u8 = 5;

// compCLFversion there, but not "3.0"
pub const WRONG_VERSION: u8 = 6;

// known to CLF, not carried; a Power above 0 that is not 1; a Range with one end at unequal depths or with noClamp
pub const NOT_CARRIED: u8 = 7;

// attribute missing or of a wrong text, `dim` included
pub const WRONG_ATTRIBUTE: u8 = 8;

// token is no number of our form; one of the right form is OUT_OF_BOUNDS (02, W-204)
pub const NO_NUMBER: u8 = 9;

// inBitDepth differs from the previous outBitDepth
pub const DEPTH_DIFFERS: u8 = 10;

// over 32 nodes
pub const MANY_NODES: u8 = 11;

// no node
pub const NO_NODES: u8 = 12;

// more numbers than room
pub const MANY_NUMBERS: u8 = 13;

// pixel slice not a multiple of three
pub const NOT_THREES: u8 = 14;

// pixel value NaN or infinite
pub const NOT_FINITE: u8 = 15;

// list and room are no accepted reading of any file into that room
pub const NO_READING: u8 = 16;

// output shorter than the text
pub const SHORT_OUTPUT: u8 = 17;

// id for writing not 1 to 64 of letters, digits, `-`, `_`, `.`
pub const WRONG_ID: u8 = 18;

// node number, from 1, not in the list
pub const NO_SUCH_NODE: u8 = 19;

// bytes are not one node element
pub const NOT_ONE_NODE: u8 = 20;

// a rule between or on a node's numbers broken
pub const RULE_BROKEN: u8 = 21;

// too few or too many numbers
pub const WRONG_COUNT: u8 = 22;

// an id seen on an earlier node (02, W-203)
pub const ID_SEEN: u8 = 23;

// a node's id that is not 1 to 32 bytes of letters, digits, `-`, `_`, `.` (02, W-203)
pub const WRONG_NODE_ID: u8 = 24;

// a token of the right form that is over 64 bytes or outside coefficient or power (02, W-204)
pub const OUT_OF_BOUNDS: u8 = 25;

// late (02, W-208): a numbered replacement whose number is not larger than the one kept at its node
pub const LATE: u8 = 28;
