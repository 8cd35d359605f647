//! Tables of what the program is run on, and what it must write.

/// Words after the program's name, an input and its output.
pub(crate) type Row = (&'static str, &'static str, &'static str);

/// What the program says if it can't read or write.
pub(crate) const FAILED: &str = "adq: input or output failed\n";

/// The lines of a run on `sat 3`.
pub(crate) const CALLS: &str =
    "push_front 1\npush_front 2\npush_front 3\npush_front 4\npop_back\nlen\n";

/// What these lines print.
pub(crate) const REPLIES: &str = "ok\nok\nok\nfull 4\n1\n2\nlist: [3, 2]\n";

/// Runs that end well.
pub(crate) const RUNS: [Row; 20] = [
    ("sat 3", CALLS, REPLIES),
    (
        "sat 3",
        "insert 0 3\ninsert 0 1\ninsert 1 2\ninsert 1 4\ninsert 4 9\nremove 1\nlinearize\n\
         is_full\nsplit_off 1\n",
        "ok\nok\nok\nfull 4\nrange\n2\nok\nfalse\n[3]\nlist: [1]\n",
    ),
    (
        "wrap 3",
        "extend_back 1 2 3 4\ninsert 0 9\npush_back 5\ndrain 0 1\ndrain 1 9\ndrain 1 1\n",
        "ok\nunoffered\n2\n[3]\nrange\n[]\nlist: [4, 5]\n",
    ),
    (
        "wrap 0",
        "push_back 5\npush_front -6\nlen\ncapacity\nis_full\n",
        "5\n-6\n0\n0\ntrue\nlist: []\n",
    ),
    ("sat 2", "", "list: []\n"),
    (
        "sat 2",
        "extend_back 7 8 9\nreplace 1 -1\nreplace 2 5\nswap 0 1\nswap 0 2\npop_front\npop_front\n\
         pop_front\n",
        "ok\n8\nrange\nok\nrange\n-1\n7\nnone\nlist: []\n",
    ),
    (
        "sat 7",
        "extend_back 0 1 2 3 4 5\ninsert 2 9\nremove 3\nswap 0 5\nswap_remove_back 4\n\
         swap_remove_front 0\ninsert 9 8\n",
        "ok\nok\n2\nok\n4\n5\nrange\nlist: [1, 9, 3, 0]\n",
    ),
    (
        "sat 0",
        "insert 0 5\ninsert 1 5\nremove 0\nswap 0 0\nreplace 0 5\nextend_front 1 2\ndrain 0 0\n\
         drain 0 1\nsplit_off 0\nlinearize\nclear\nis_empty\nis_full\n",
        "full 5\nrange\nnone\nrange\nrange\nok\n[]\nrange\n[]\nok\nok\ntrue\ntrue\nlist: []\n",
    ),
    (
        "wrap 1",
        "push_back 1\npush_front 2\npush_back 3\nextend_back 4 5\nextend_front 6 7\nsplit_off 0\n\
         split_off 0\nlen\n",
        "none\n1\n2\nok\nok\n[7]\n[]\n0\nlist: []\n",
    ),
    (
        "sat 8",
        "extend_back 0 1 2 3 4 5 6 7\ndrain 0 8\nextend_front 0 1 2 3 4 5 6 7\nsplit_off 0\n\
         extend 0 1 2 3 4 5 6 7\n",
        "ok\n[0, 1, 2, 3, 4, 5, 6, 7]\nok\n[7, 6, 5, 4, 3, 2, 1, 0]\nok\n\
         list: [0, 1, 2, 3, 4, 5, 6, 7]\n",
    ),
    (
        "sat 3",
        "\n  \npush_back 1\r\npush_back 007\n",
        "ok\nok\nlist: [1, 7]\n",
    ),
    ("sat 3", "  push_back   1  \r\n", "ok\nlist: [1]\n"),
    (
        "wrap 3",
        "extend_back 1 2\nextend 3 4 5\n",
        "ok\nok\nlist: [3, 4, 5]\n",
    ),
    ("wrap 0", "extend 1 2\n", "ok\nlist: []\n"),
    ("sat 3", "push_back -0\n", "ok\nlist: [0]\n"),
    ("sat 3", "push_back 007\n", "ok\nlist: [7]\n"),
    ("sat 3", "extend_back\n", "ok\nlist: []\n"),
    (
        "sat 3",
        "extend_back -9223372036854775808 -0009223372036854775808  9223372036854775807 ",
        "ok\nlist: [-9223372036854775808, -9223372036854775808, 9223372036854775807]\n",
    ),
    ("sat 3", "remove 18446744073709551615\n", "none\nlist: []\n"),
    ("sat 3", "remove 000", "none\nlist: []\n"),
];

/// One line after another of every call.
pub(crate) const EVERY_CALL: &str =
    "capacity\nis_empty\npush_back 1\npush_front 2\nextend_back 3 4 5 6 7 8 9\nis_full\n\
     insert 1 10\nremove 1\ninsert 1 11\nswap 0 1\nreplace 0 -12\nswap_remove_back 0\n\
     swap_remove_front 1\nextend_front 13 14 15\nlinearize\ndrain 1 3\nlen\nsplit_off 2\n\
     pop_back\npop_front\nclear\nextend 16 17 18 19 20 21 22 23 24\n";

/// What these lines print, on each capacity under each policy.
pub(crate) const ON_EACH: [(&str, &str); 14] = [
    (
        "sat 0",
        "0\ntrue\nfull 1\nfull 2\nok\ntrue\nrange\nnone\nrange\nrange\nrange\nnone\nnone\nok\n\
         ok\nrange\n0\nrange\nnone\nnone\nok\nok\nlist: []\n",
    ),
    (
        "sat 1",
        "1\ntrue\nok\nfull 2\nok\ntrue\nfull 10\nnone\nfull 11\nrange\n1\n-12\nnone\nok\nok\n\
         range\n1\nrange\n13\nnone\nok\nok\nlist: [16]\n",
    ),
    (
        "sat 2",
        "2\ntrue\nok\nok\nok\ntrue\nfull 10\n1\nok\nok\n11\n-12\nnone\nok\nok\nrange\n2\n[]\n2\n\
         13\nok\nok\nlist: [16, 17]\n",
    ),
    (
        "sat 3",
        "3\ntrue\nok\nok\nok\ntrue\nfull 10\n1\nok\nok\n11\n-12\n2\nok\nok\n[13, 3]\n1\nrange\n\
         14\nnone\nok\nok\nlist: [16, 17, 18]\n",
    ),
    (
        "sat 5",
        "5\ntrue\nok\nok\nok\ntrue\nfull 10\n1\nok\nok\n11\n-12\n2\nok\nok\n[13, 5]\n3\n[4]\n3\n\
         14\nok\nok\nlist: [16, 17, 18, 19, 20]\n",
    ),
    (
        "sat 7",
        "7\ntrue\nok\nok\nok\ntrue\nfull 10\n1\nok\nok\n11\n-12\n2\nok\nok\n[13, 7]\n5\n\
         [4, 5, 6]\n3\n14\nok\nok\nlist: [16, 17, 18, 19, 20, 21, 22]\n",
    ),
    (
        "sat 8",
        "8\ntrue\nok\nok\nok\ntrue\nfull 10\n1\nok\nok\n11\n-12\n2\nok\nok\n[13, 8]\n6\n\
         [4, 5, 6, 7]\n3\n14\nok\nok\nlist: [16, 17, 18, 19, 20, 21, 22, 23]\n",
    ),
    (
        "wrap 0",
        "0\ntrue\n1\n2\nok\ntrue\nunoffered\nnone\nunoffered\nrange\nrange\nnone\nnone\nok\nok\n\
         range\n0\nrange\nnone\nnone\nok\nok\nlist: []\n",
    ),
    (
        "wrap 1",
        "1\ntrue\nnone\n1\nok\ntrue\nunoffered\nnone\nunoffered\nrange\n9\n-12\nnone\nok\nok\n\
         range\n1\nrange\n15\nnone\nok\nok\nlist: [24]\n",
    ),
    (
        "wrap 2",
        "2\ntrue\nnone\nnone\nok\ntrue\nunoffered\n9\nunoffered\nrange\n8\n-12\nnone\nok\nok\n\
         range\n2\n[]\n14\n15\nok\nok\nlist: [23, 24]\n",
    ),
    (
        "wrap 3",
        "3\ntrue\nnone\nnone\nok\ntrue\nunoffered\n8\nunoffered\nok\n9\n-12\nnone\nok\nok\n\
         [14, 13]\n1\nrange\n15\nnone\nok\nok\nlist: [22, 23, 24]\n",
    ),
    (
        "wrap 5",
        "5\ntrue\nnone\nnone\nok\ntrue\nunoffered\n6\nunoffered\nok\n7\n-12\n5\nok\nok\n\
         [14, 13]\n3\n[8]\n9\n15\nok\nok\nlist: [20, 21, 22, 23, 24]\n",
    ),
    (
        "wrap 7",
        "7\ntrue\nnone\nnone\nok\ntrue\nunoffered\n4\nunoffered\nok\n5\n-12\n3\nok\nok\n\
         [14, 13]\n5\n[6, 7, 8]\n9\n15\nok\nok\nlist: [18, 19, 20, 21, 22, 23, 24]\n",
    ),
    (
        "wrap 8",
        "8\ntrue\nnone\nnone\nok\ntrue\nunoffered\n3\nunoffered\nok\n4\n-12\n1\nok\nok\n\
         [14, 13]\n6\n[5, 6, 7, 8]\n9\n15\nok\nok\nlist: [17, 18, 19, 20, 21, 22, 23, 24]\n",
    ),
];

/// Each word that names a call, and how many numbers follow it. An extend takes any count.
pub(crate) const WORDS: [(&str, usize); 21] = [
    ("push_front", 1),
    ("push_back", 1),
    ("pop_front", 0),
    ("pop_back", 0),
    ("insert", 2),
    ("remove", 1),
    ("swap_remove_back", 1),
    ("swap_remove_front", 1),
    ("swap", 2),
    ("replace", 2),
    ("clear", 0),
    ("linearize", 0),
    ("extend_back", 0),
    ("extend_front", 0),
    ("extend", 0),
    ("drain", 2),
    ("split_off", 1),
    ("len", 0),
    ("capacity", 0),
    ("is_empty", 0),
    ("is_full", 0),
];

/// Inputs that have a bad line, and the number of that line.
pub(crate) const BAD: [(&str, usize); 19] = [
    ("push_back 1\npush_back x\n", 2),
    ("\n  \npush_back 1\r\npush_back 007\nremove x", 5),
    ("push_back", 1),
    ("push_back 1 2", 1),
    ("PUSH_BACK 1", 1),
    ("swap 1", 1),
    ("extend x", 1),
    ("extend_back 1 2x 3", 1),
    ("insert -1 2", 1),
    ("push_back +1", 1),
    ("push_back -", 1),
    ("push_back 1.0", 1),
    ("push_back 9223372036854775808\n", 1),
    ("push_back -9223372036854775809", 1),
    ("remove 18446744073709551616", 1),
    ("push_back\t1", 1),
    ("push_back 1\r\r", 1),
    ("push_back \u{661}", 1),
    ("len;len", 1),
];

/// Inputs that aren't UTF-8 in the line of this number.
pub(crate) const NOT_TEXT: [(&[u8], usize); 2] = [
    (b"push_back 1 \xff", 1),
    (b"len\n\n\xff\nx\n", 3),
];

/// Words after the program's name that name no policy and capacity.
pub(crate) const BAD_ARGUMENTS: [&str; 8] = [
    "", "sat", "sat 4", "wrap 4", "sat 03", "sat 3 3", "Sat 3", "3 sat",
];
