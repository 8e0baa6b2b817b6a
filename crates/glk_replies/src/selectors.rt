//! The selectors of the calls, each by its name in Glk (Glk 0.7.5, "The Dispatch Layer").

// The program
pub const EXIT: u32 = 0x01;

pub const TICK: u32 = 0x03;

// What the library can do
pub const GESTALT: u32 = 0x04;

pub const GESTALT_EXT: u32 = 0x05;

// Windows
pub const WINDOW_ITERATE: u32 = 0x20;

pub const WINDOW_GET_ROCK: u32 = 0x21;

pub const WINDOW_GET_ROOT: u32 = 0x22;

pub const WINDOW_OPEN: u32 = 0x23;

pub const WINDOW_CLOSE: u32 = 0x24;

pub const WINDOW_GET_SIZE: u32 = 0x25;

pub const WINDOW_SET_ARRANGEMENT: u32 = 0x26;

pub const WINDOW_GET_ARRANGEMENT: u32 = 0x27;

pub const WINDOW_GET_TYPE: u32 = 0x28;

pub const WINDOW_GET_PARENT: u32 = 0x29;

pub const WINDOW_CLEAR: u32 = 0x2A;

pub const WINDOW_MOVE_CURSOR: u32 = 0x2B;

pub const WINDOW_GET_STREAM: u32 = 0x2C;

pub const WINDOW_SET_ECHO_STREAM: u32 = 0x2D;

pub const WINDOW_GET_ECHO_STREAM: u32 = 0x2E;

pub const SET_WINDOW: u32 = 0x2F;

pub const WINDOW_GET_SIBLING: u32 = 0x30;

// Streams
pub const STREAM_ITERATE: u32 = 0x40;

pub const STREAM_GET_ROCK: u32 = 0x41;

pub const STREAM_OPEN_FILE: u32 = 0x42;

pub const STREAM_OPEN_MEMORY: u32 = 0x43;

pub const STREAM_CLOSE: u32 = 0x44;

pub const STREAM_SET_POSITION: u32 = 0x45;

pub const STREAM_GET_POSITION: u32 = 0x46;

pub const STREAM_SET_CURRENT: u32 = 0x47;

pub const STREAM_GET_CURRENT: u32 = 0x48;

// File references
pub const FILEREF_CREATE_TEMP: u32 = 0x60;

pub const FILEREF_CREATE_BY_NAME: u32 = 0x61;

pub const FILEREF_CREATE_BY_PROMPT: u32 = 0x62;

pub const FILEREF_DESTROY: u32 = 0x63;

pub const FILEREF_ITERATE: u32 = 0x64;

pub const FILEREF_GET_ROCK: u32 = 0x65;

pub const FILEREF_DELETE_FILE: u32 = 0x66;

pub const FILEREF_DOES_FILE_EXIST: u32 = 0x67;

pub const FILEREF_CREATE_FROM_FILEREF: u32 = 0x68;

// Output
pub const PUT_CHAR: u32 = 0x80;

pub const PUT_CHAR_STREAM: u32 = 0x81;

pub const PUT_STRING: u32 = 0x82;

pub const PUT_STRING_STREAM: u32 = 0x83;

pub const PUT_BUFFER: u32 = 0x84;

pub const PUT_BUFFER_STREAM: u32 = 0x85;

pub const SET_STYLE: u32 = 0x86;

pub const SET_STYLE_STREAM: u32 = 0x87;

// Input
pub const GET_CHAR_STREAM: u32 = 0x90;

pub const GET_LINE_STREAM: u32 = 0x91;

pub const GET_BUFFER_STREAM: u32 = 0x92;

// The case of characters
pub const CHAR_TO_LOWER: u32 = 0xA0;

pub const CHAR_TO_UPPER: u32 = 0xA1;

// Styles
pub const STYLEHINT_SET: u32 = 0xB0;

pub const STYLEHINT_CLEAR: u32 = 0xB1;

pub const STYLE_DISTINGUISH: u32 = 0xB2;

pub const STYLE_MEASURE: u32 = 0xB3;

// Events
pub const SELECT: u32 = 0xC0;

pub const SELECT_POLL: u32 = 0xC1;

pub const REQUEST_LINE_EVENT: u32 = 0xD0;

pub const CANCEL_LINE_EVENT: u32 = 0xD1;

pub const REQUEST_CHAR_EVENT: u32 = 0xD2;

pub const CANCEL_CHAR_EVENT: u32 = 0xD3;

// Unicode: the case of characters
pub const BUFFER_TO_LOWER_CASE_UNI: u32 = 0x120;

pub const BUFFER_TO_UPPER_CASE_UNI: u32 = 0x121;

pub const BUFFER_TO_TITLE_CASE_UNI: u32 = 0x122;

// Unicode: output
pub const PUT_CHAR_UNI: u32 = 0x128;

pub const PUT_STRING_UNI: u32 = 0x129;

pub const PUT_BUFFER_UNI: u32 = 0x12A;

pub const PUT_CHAR_STREAM_UNI: u32 = 0x12B;

pub const PUT_STRING_STREAM_UNI: u32 = 0x12C;

pub const PUT_BUFFER_STREAM_UNI: u32 = 0x12D;

// Unicode: input
pub const GET_CHAR_STREAM_UNI: u32 = 0x130;

pub const GET_BUFFER_STREAM_UNI: u32 = 0x131;

pub const GET_LINE_STREAM_UNI: u32 = 0x132;

// Unicode: streams
pub const STREAM_OPEN_FILE_UNI: u32 = 0x138;

pub const STREAM_OPEN_MEMORY_UNI: u32 = 0x139;

// Unicode: events
pub const REQUEST_CHAR_EVENT_UNI: u32 = 0x140;

pub const REQUEST_LINE_EVENT_UNI: u32 = 0x141;

// Echo of line input
pub const SET_ECHO_LINE_EVENT: u32 = 0x150;
