//! The inputs of the cases, by name. The program `cases` of bench/twin takes them from this file.

/// The accounts that the books are asked about: the first, the last, one past it, and the largest
/// number.
pub(crate) const ACCOUNTS: [u16; 4] = [0, 63, 64, 65535];

/// What a restart leaves of the one block that an instruction had not synced: the bytes before, the
/// newer bytes, an unreadable block, a torn one, and junk twice.
pub(crate) const REMAINS: [u8; 6] = [0, 1, 2, 3, 7, 255];

/// Scripts of lines in no listed form, and beside them a few that are well formed.
pub(crate) const SHAPES: [(&str, &[u8]); 12] = [
    ("no input", b""),
    ("one line feed", b"\n"),
    ("no last line feed", b"Q 0 0"),
    ("a last line feed", b"Q 0 0\n"),
    ("an empty last line", b"Q 0 0\n\n"),
    ("carriage returns", b"Q 0 0\r\nK 0 0\r"),
    (
        "bytes above 127",
        b"\x80\nQ \xff 0\n\xc3\x89 0\nQ 0 0\xa0\n",
    ),
    ("a null byte", b"Q 0 0\x00\n\x00\n"),
    (
        "spaces",
        b" Q 0 0\nQ  0 0\nQ 0  0\nQ 0 0 \nQ0 0\nQ 00\nQ\t0 0\n",
    ),
    (
        "letters of no form, and a cut in line 2",
        b"q 0 0\nC 0\nX 1\nQQ 0 0\n1 0 0\nB 1\n",
    ),
    (
        "fields",
        b"Q\nQ 0\nQ 0 0 0\nI 0 0\nI 0 0 1 1\nE\nE 0 0\nT 1 2 0 0 0 1\n",
    ),
    (
        "signs and zeros",
        b"Q +0 0\nQ -0 0\nQ 00 0\nQ 0 01\nQ 0x0 0\nQ 0. 0\nQ 1e1 0\n",
    ),
];

/// Each field at 0, at its largest value and one past it.
pub(crate) const EDGES: [(&str, &[u8]); 6] = [
    (
        "Issue",
        b"I 0 0 0\nI 63 15 1\nI 64 0 1\nI 65535 0 1\nI 65536 0 1\nI 0 16 1\nI 0 65535 1\nI 0 65536 1\nI 0 0 18446744073709551615\nI 0 0 18446744073709551616\nI 0 0 1000000000000\nI 1 0 1\n",
    ),
    (
        "Pay in",
        b"D 0 0 0\nD 63 15 1\nD 64 0 1\nD 65536 0 1\nD 0 16 1\nD 0 65536 1\nD 0 0 18446744073709551615\nD 0 0 18446744073709551616\nD 0 0 1000000000001\nD 0 0 1000000000000\nD 1 0 1\n",
    ),
    (
        "Enter",
        b"T 70 70 0 0 0 1 1\nT 70 71 0 0 0 1 1\nT 0 64 0 0 0 1 1\nT 0 1 16 0 0 1 1\nT 0 1 0 16 0 1 1\nT 0 1 0 0 0 0 1\nT 0 1 0 0 0 1 0\nT 0 1 0 0 128 1 1\nT 0 1 0 0 4294967295 1 1\nT 0 1 0 0 4294967296 1 1\nT 0 63 15 15 127 18446744073709551615 18446744073709551615\nT 0 0 0 0 127 1 1\n",
    ),
    (
        "trades",
        b"E 0\nE 127\nE 128\nE 4294967295\nE 4294967296\nL 128\nL 0\nS 128\nS 0\nF 128\nF 0\nF 4294967296\n",
    ),
    (
        "questions",
        b"Q 63 15\nQ 64 0\nQ 0 16\nQ 64 16\nQ 65535 65535\nQ 65536 0\nK 63 15\nK 64 0\nK 0 16\nK 0 65536\n",
    ),
    (
        "too little",
        b"T 0 1 0 0 5 10 10\nE 5\nI 0 0 9\nE 5\nI 0 0 1\nE 5\nL 5\nD 1 0 10\nL 5\nF 5\nQ 0 0\nK 1 0\nF 5\nT 0 1 0 0 5 1 1\n",
    ),
];

/// Scripts with cuts of the power.
pub(crate) const CUTS: [(&str, &[u8]); 13] = [
    (
        "a cut in a settlement",
        b"I 1 0 100\nD 2 0 5000\nT 1 2 0 0 7 100 5000\nE 7\nL 7\nC 15\nS 7\nC 100 1\nQ 2 0\nS 7\n",
    ),
    (
        "an opening cut at the header, at a mark, at a record and at the next mark",
        b"I 1 0 100\nC 0\nC 1\nC 2\nC 3\nQ 1 0\nI 1 0 1\nE 200\nC 4\nQ 1 0\n",
    ),
    (
        "two cuts, the second at once, of a record",
        b"I 1 0 100\nC 5\nI 2 0 50\nC 0 1\nC 100 1\nQ 2 0\n",
    ),
    (
        "a slip kept over refused openings",
        b"I 1 0 100\nC 7\nI 2 0 50\nC 0 1\nC 5\nK 2 0\nC 100\nQ 2 0\n",
    ),
    (
        "two cuts, each in an instruction",
        b"I 1 0 100\nC 7\nI 2 0 50\nC 9 1\nI 3 0 25\nC 100 0\nQ 2 0\nQ 3 0\n",
    ),
    (
        "the same instruction twice",
        b"I 1 0 100\nC 7\nI 1 0 100\nC 100 1\nQ 1 0\nI 1 0 100\nQ 1 0\nC 100\nQ 1 0\n",
    ),
    (
        "an engine that is down",
        b"I 1 0 100\nT 1 2 0 0 7 100 1\nE 7\nC 8\nF 7\nF 7\nE 200\nI 64 0 0\nX\nQ 1 0\nQ 64 0\nC 100\nQ 1 0\nF 7\nQ 1 0\n",
    ),
    (
        "a mark torn over junk",
        b"I 1 0 100\nC 7\nI 2 0 50\nC 7 7\nI 2 0 50\nC 100 3\nQ 2 0\nI 2 0 50\nC 100\nQ 2 0\n",
    ),
    (
        "a mark torn where none can be read",
        b"I 1 0 100\nC 7\nI 2 0 50\nC 7 2\nI 2 0 50\nC 7 3\nI 2 0 50\nC 100 1\nQ 2 0\n",
    ),
    (
        "no calls for an instruction that the rules refuse",
        b"I 1 0 100\nC 4\nI 1 16 1\nE 7\nE 128\nT 1 1 0 0 0 1 1\nI 1 0 1\nI 1 16 1\n",
    ),
    (
        "a trade through cuts that lose nothing",
        b"I 1 0 100\nD 2 0 5000\nT 1 2 0 0 7 100 5000\nC 1000\nE 7\nC 1000 1 2 3\nQ 1 0\nL 7\nC 1000\nK 2 0\nS 7\nC 4294967295\nQ 2 0\nK 1 0\nS 7\nF 7\n",
    ),
    (
        "cuts before the first instruction",
        b"C 2\nC 1\nC 0\nC 2 1\nI 0 0 1\nC 2\nC 5\nI 0 0 1\nC 100\nQ 0 0\n",
    ),
    (
        "forms of cuts",
        b"C\nC \nC 02\nC 4294967296\nC 4294967295\nC 2 \nC 2  0\nC 2 00\nC 2 256\nC 2 0 1 2 3 255 4 5 6\nC 2 0 1 2 3 255 4 5 6 7\nC 2 -1\nC 2,1\nc 2\n",
    ),
];
