// The opcodes by name, in the order of their bytes. An enum is no plainer: to come to it from a byte takes a second list of as many lines.
pub const NOP: u8 = 0;

pub const MOVE: u8 = 1;

pub const LOADL: u8 = 2;

pub const LOADI: u8 = 3;

pub const LOADINEG: u8 = 4;

pub const LOADI__1: u8 = 5;

pub const LOADI_0: u8 = 6;

pub const LOADI_1: u8 = 7;

pub const LOADI_2: u8 = 8;

pub const LOADI_3: u8 = 9;

pub const LOADI_4: u8 = 10;

pub const LOADI_5: u8 = 11;

pub const LOADI_6: u8 = 12;

pub const LOADI_7: u8 = 13;

pub const LOADI16: u8 = 14;

pub const LOADI32: u8 = 15;

pub const LOADSYM: u8 = 16;

pub const LOADNIL: u8 = 17;

pub const LOADSELF: u8 = 18;

pub const LOADT: u8 = 19;

pub const LOADF: u8 = 20;

pub const GETGV: u8 = 21;

pub const SETGV: u8 = 22;

pub const GETSV: u8 = 23;

pub const SETSV: u8 = 24;

pub const GETIV: u8 = 25;

pub const SETIV: u8 = 26;

pub const GETCV: u8 = 27;

pub const SETCV: u8 = 28;

pub const GETCONST: u8 = 29;

pub const SETCONST: u8 = 30;

pub const GETMCNST: u8 = 31;

pub const SETMCNST: u8 = 32;

pub const GETUPVAR: u8 = 33;

pub const SETUPVAR: u8 = 34;

pub const GETIDX: u8 = 35;

pub const GETIDX0: u8 = 36;

pub const SETIDX: u8 = 37;

pub const JMP: u8 = 38;

pub const JMPIF: u8 = 39;

pub const JMPNOT: u8 = 40;

pub const JMPNIL: u8 = 41;

pub const JMPUW: u8 = 42;

pub const EXCEPT: u8 = 43;

pub const RESCUE: u8 = 44;

pub const RAISEIF: u8 = 45;

pub const MATCHERR: u8 = 46;

pub const SSEND: u8 = 47;

pub const SSEND0: u8 = 48;

pub const SSENDB: u8 = 49;

pub const SEND: u8 = 50;

pub const SEND0: u8 = 51;

pub const SENDB: u8 = 52;

pub const CALL: u8 = 53;

pub const BLKCALL: u8 = 54;

pub const SUPER: u8 = 55;

pub const ARGARY: u8 = 56;

pub const ENTER: u8 = 57;

pub const KEY_P: u8 = 58;

pub const KEYEND: u8 = 59;

pub const KARG: u8 = 60;

pub const RETURN: u8 = 61;

pub const RETURN_BLK: u8 = 62;

pub const RETSELF: u8 = 63;

pub const RETNIL: u8 = 64;

pub const RETTRUE: u8 = 65;

pub const RETFALSE: u8 = 66;

pub const BREAK: u8 = 67;

pub const BLKPUSH: u8 = 68;

pub const ADD: u8 = 69;

pub const ADDI: u8 = 70;

pub const SUB: u8 = 71;

pub const SUBI: u8 = 72;

pub const ADDILV: u8 = 73;

pub const SUBILV: u8 = 74;

pub const MUL: u8 = 75;

pub const DIV: u8 = 76;

pub const EQ: u8 = 77;

pub const LT: u8 = 78;

pub const LE: u8 = 79;

pub const GT: u8 = 80;

pub const GE: u8 = 81;

pub const ARRAY: u8 = 82;

pub const ARRAY2: u8 = 83;

pub const ARYCAT: u8 = 84;

pub const ARYPUSH: u8 = 85;

pub const ARYSPLAT: u8 = 86;

pub const AREF: u8 = 87;

pub const ASET: u8 = 88;

pub const APOST: u8 = 89;

pub const INTERN: u8 = 90;

pub const SYMBOL: u8 = 91;

pub const STRING: u8 = 92;

pub const STRCAT: u8 = 93;

pub const HASH: u8 = 94;

pub const HASHADD: u8 = 95;

pub const HASHCAT: u8 = 96;

pub const LAMBDA: u8 = 97;

pub const BLOCK: u8 = 98;

pub const METHOD: u8 = 99;

pub const RANGE_INC: u8 = 100;

pub const RANGE_EXC: u8 = 101;

pub const OCLASS: u8 = 102;

pub const CLASS: u8 = 103;

pub const MODULE: u8 = 104;

pub const EXEC: u8 = 105;

pub const DEF: u8 = 106;

pub const TDEF: u8 = 107;

pub const SDEF: u8 = 108;

pub const ALIAS: u8 = 109;

pub const UNDEF: u8 = 110;

pub const SCLASS: u8 = 111;

pub const TCLASS: u8 = 112;

pub const DEBUG: u8 = 113;

pub const ERR: u8 = 114;

pub const EXT1: u8 = 115;

pub const EXT2: u8 = 116;

pub const EXT3: u8 = 117;

pub const STOP: u8 = 118;
