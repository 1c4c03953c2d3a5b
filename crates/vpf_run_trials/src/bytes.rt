//! Files of the trials, byte for byte.

/// One column `id` of kind I, and one row, 1.
pub const PLAIN: &[u8] = b"\x19\0\0\0L;T;-;id=I,1,P,i,-,-,-,:;\x01\0\0\0";

/// A text of any count.
pub const TEXT: &[u8] = b"\x18\0\0\0L;T;-;a=T,*,N,d,-,-,-,:;\x03\0\0\0abc";

/// The same in the other order.
pub const TEXT_BIG: &[u8] = b"\0\0\0\x18M;T;-;a=T,*,N,d,-,-,-,:;\0\0\0\x03abc";

/// And the index of its rows.
pub const TEXT_INDEX: &[u8] = b"\0\0\0\x01\0\0\0\x18\0\0\0\x1c\0\0\0\x07";

/// Nine rows: `id` holds their numbers, and `c` is `b` in row 2 and `a` elsewhere.
pub const NINE: &[u8] =
    b"\x2e\0\0\0L;T;-;id=I,1,P,i,-,-,-,:c=T,1,N,d,-,t.lti,-,:;\x01\0\0\0a\x02\0\0\0b\x03\0\0\0a\x04\0\0\0a\
      \x05\0\0\0a\x06\0\0\0a\x07\0\0\0a\x08\0\0\0a\x09\0\0\0a";

/// The index of `c` as lists of rows.
pub const LIST: &[u8] =
    b"N\0\0\0\x02\0\0\0\x09\0\0\0TT\x01\0\0\0St.tab       c                        S\0\0\0aN\0\0\0\x08\0\0\0b\x02\0\0\0\0\0\0\0\x01\0\x03\0\x04\0\x05\0\x06\0\x07\0\x08\0\x09\0";

/// Three rows of a triplet id and a text of any count.
pub const VARYING: &[u8] =
    b"\x2d\0\0\0L;T;-;k=K,1,N,d,-,-,-,:c=T,*,N,d,-,v.lti,-,:;\x40\x07\x01\0\0\0a\x40\x08\x02\0\0\0bb\0\x01\0\0\0a";

/// Where they lie.
pub const VARYING_INDEX: &[u8] =
    b"\x03\0\0\0\x2d\0\0\0\x31\0\0\0\x07\0\0\0\x38\0\0\0\x08\0\0\0\x40\0\0\0\x06\0\0\0";

/// The edges of a coverage: three between two nodes.
pub const EDG: &[u8] =
    b"\xe6\0\0\0L;Edges;-;id=I,1,P,Id,-,-,-,:start_node=I,1,N,Start,-,-,-,:end_node=I,1,N,End,-,-,-,:right_face=I,1,N,Right,-,-,-,:left_\
    face=I,1,N,Left,-,-,-,:right_edge=I,1,N,Right,-,-,-,:left_edge=I,1,N,Left,-,-,-,:tile_line=S,1,N,Line,-,-,-,:;\x01\0\0\0\x01\0\0\0\
    \x02\0\0\0\x02\0\0\0\x01\0\0\0\x03\0\0\0\x02\0\0\0\0\0\x02\0\0\0\x02\0\0\0\x01\0\0\0\x03\0\0\0\x01\0\0\0\x03\0\0\0\x01\0\0\0\0\0\
    \x03\0\0\0\x01\0\0\0\x02\0\0\0\x03\0\0\0\x02\0\0\0\x02\0\0\0\x01\0\0\0\x01\0";

/// Its faces.
pub const FAC: &[u8] =
    b"9\0\0\0L;Faces;-;id=I,1,P,Id,-,-,-,:ring_ptr=I,1,N,Ring,-,-,-,:;\x01\0\0\0\x01\0\0\0\x02\0\0\0\x02\0\0\0\x03\0\0\0\x03\0\0\0";

/// Its rings.
pub const RNG: &[u8] =
    b"U\0\0\0L;Rings;-;id=I,1,P,Id,-,-,-,:face_id=I,1,N,Face,-,-,-,:start_edge=I,1,N,Edge,-,-,-,:;\x01\0\0\0\x01\0\0\0\x01\0\0\0\x02\0\0\
    \0\x02\0\0\0\x01\0\0\0\x03\0\0\0\x03\0\0\0\x02\0\0\0";

/// Its nodes.
pub const CND: &[u8] =
    b";\0\0\0L;Nodes;-;id=I,1,P,Id,-,-,-,:first_edge=I,1,N,Edge,-,-,-,:;\x01\0\0\0\x01\0\0\0\x02\0\0\0\x01\0\0\0";

/// Its plan for two tiles.
pub const PLAN: &[u8] =
    b"\x39\0\0\0L;Plan;-;id=I,1,P,Face,-,-,-,:tile_id=I,1,N,Tile,-,-,-,:;\x02\0\0\0\x01\0\0\0\x03\0\0\0\x02\0\0\0";

/// The table of these tiles.
pub const TILES: &[u8] =
    b"\x3a\0\0\0L;Tiles;-;id=I,1,P,Id,-,-,-,:tile_name=T,8,N,Name,-,-,-,:;\x01\0\0\0t1      \x02\0\0\0t2      ";
