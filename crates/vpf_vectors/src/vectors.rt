//! Worked tables, and what the program says of them.

/// A run of the program over one file: what it is given, and what is to be seen.
#[derive(Clone, Copy)]
pub struct Vector {
    /// The worked example that it belongs to, counted from 1. An example may have several runs.
    pub example: u32,
    /// The words after the program's name: a command and the name of the file, which is `t.tab`.
    pub words: [&'static str; 2],
    /// All that the file holds.
    pub bytes: &'static [u8],
    /// The exit status.
    pub status: u8,
    /// The text that is printed.
    pub text: &'static str,
}

const SHOW: [&str; 2] = ["show", "t.tab"];

const TABLE: [&str; 2] = ["table", "t.tab"];

/// Worked tables (MIL-STD-2407, 5.4, VPF table encoding), and what is to be seen of each: a table of one row with several keys
/// and in both orders, a header in a form that is read and never written, a table without rows, and files that end too early.
pub const VECTORS: [Vector; 10] = [
    Vector {
        example: 1,
        words: SHOW,
        bytes: b"\x19\0\0\0L;T;-;id=I,1,P,i,-,-,-,:;\x01\0\0\0",
        status: 0,
        text: "order L\ndescription T\nnarrative -\ncolumn 1 id I,1 P - - - i\nrows 1\n1 | 1\n",
    },
    Vector {
        example: 1,
        words: SHOW,
        bytes: b"\x19\0\0\0L;T;-;id=I,1,F,i,-,-,-,:;\x01\0\0\0",
        status: 0,
        text: "order L\ndescription T\nnarrative -\ncolumn 1 id I,1 F - - - i\nrows 1\n1 | 1\n",
    },
    Vector {
        example: 1,
        words: TABLE,
        bytes: b"\x19\0\0\0L;T;-;id=I,1,f,i,-,-,-,:;\x01\0\0\0",
        status: 1,
        text: "refused key t.tab at 17\n",
    },
    Vector {
        example: 2,
        words: SHOW,
        bytes: b"\0\0\0\x19M;T;-;id=I,1,P,i,-,-,-,:;\0\0\0\x01",
        status: 0,
        text: "order M\ndescription T\nnarrative -\ncolumn 1 id I,1 P - - - i\nrows 1\n1 | 1\n",
    },
    Vector {
        example: 3,
        words: SHOW,
        bytes: b"\x22\0\0\0Table;-;id=I,    1,P,Row Id,-,-,:;\x07\0\0\0",
        status: 0,
        text: "order L\ndescription Table\nnarrative -\ncolumn 1 id I,1 P - - - Row Id\nrows 1\n1 | 7\n",
    },
    Vector {
        example: 4,
        words: TABLE,
        bytes: b"\x19\0\0\0L;T;-;id=I,1,P,i,-,-,-,:;",
        status: 0,
        text: "accepted rows 0 columns 1\n",
    },
    Vector {
        example: 5,
        words: SHOW,
        bytes: b"\x19\0\0\0L;T;-;id=I,1,P,i,-,-,-,:;\x01\0\0",
        status: 1,
        text: "refused cell-cut t.tab at 29\n",
    },
    Vector {
        example: 5,
        words: SHOW,
        bytes: b"\x19\0\0\0L;T;-;id=I,1,P,i,-,-,-,:",
        status: 1,
        text: "refused header-cut t.tab at 4\n",
    },
    Vector {
        example: 5,
        words: SHOW,
        bytes: b"",
        status: 1,
        text: "refused number-cut t.tab at 0\n",
    },
    Vector {
        example: 6,
        words: TABLE,
        bytes: b"\x18\0\0\0L;T;-;a=T,*,N,d,-,-,-,:;\xff\xff\xff\xffabc",
        status: 1,
        text: "refused cell-cut t.tab at 28\n",
    },
];
