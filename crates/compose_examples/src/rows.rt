//! Migrations with answers that were worked out by hand. What a case of tests/cases shows is not
//! here.

/// Two tables of one source each, and what is printed about the keys on which they differ.
pub struct Explained {
    /// The name of the example.
    pub name: &'static str,
    /// The source of the old table.
    pub old: &'static str,
    /// The source of the new table.
    pub new: &'static str,
    /// The expected text.
    pub prints: &'static str,
}

/// A migration with fresh keysyms, and what is printed if a certificate is asked for.
pub struct Asked {
    /// The name of the example.
    pub name: &'static str,
    /// The source of the old table.
    pub old: &'static str,
    /// The source of the new table.
    pub new: &'static str,
    /// The repertoire.
    pub repertoire: &'static str,
    /// The name of the fresh keysym; empty if there is none.
    pub fresh: &'static str,
    /// The expected text.
    pub prints: &'static str,
}

/// A migration with a certificate, and the verdict of the checker.
pub struct Row {
    /// The name of the example.
    pub name: &'static str,
    /// The source of the old table.
    pub old: &'static str,
    /// The source of the new table.
    pub new: &'static str,
    /// The repertoire.
    pub repertoire: &'static str,
    /// The certificate.
    pub certificate: &'static str,
    /// The expected verdict.
    pub says: &'static str,
}

#[rattlefmt::skip]
pub static CHECKED: [Row; 2] = [
    Row {
        name: "check-fresh-dead-key",
        old: "<Multi_key> <apostrophe> <e> : \"é\" eacute # e acute\n",
        new: "<Multi_key> <apostrophe> <e> : \"é\" eacute # e acute\n<dead_caron> <c> : \"č\"\n",
        repertoire: "",
        certificate: "compose-certificate 2\nbound 2\npairs 3\n0 0\n1 2\n2 3\ntypings 0\nfresh 1\nfe5a\n",
        says: "yes",
    },
    Row {
        name: "check-pair-missing",
        old: "<Multi_key> <apostrophe> <e> : \"é\" eacute # e acute\n<dead_acute> <e> : \"é\"\n",
        new: "<Multi_key> <apostrophe> <e> : \"é\" eacute # e acute\n<dead_acute> <e> : \"é\"\n<Multi_key> <apostrophe> <a> : \"á\"\n",
        repertoire: "keys 0x20 0x7e\nkeys 0xfe51 0xfe51\nkeys 0xff20 0xff20\nU+00E1\nU+00E9\n",
        certificate: "compose-certificate 1\nbound 2\npairs 3\n0 0\n1 1\n2 2\ntypings 2\nU+00E1 ff20 27 61\nU+00E9 fe51 65\n",
        says: "no: 8 PairMissing pair=2 keysym=0x27",
    },
];

#[rattlefmt::skip]
pub static EXPLAINED: [Explained; 2] = [
    Explained {
        name: "explain-cancels",
        old: "<dead_grave> <dead_acute> <c> : \"c\"\n",
        new: "<dead_grave> <d> : \"y\"\n",
        prints: "keys dead_grave dead_acute\nkind cancelled\nold \"\"\nnew \"\"\n",
    },
    Explained {
        name: "explain-new-start",
        old: "<Multi_key> <apostrophe> <e> : \"é\" eacute # e acute\n",
        new: "<Multi_key> <apostrophe> <e> : \"é\" eacute # e acute\n<dead_caron> <c> : \"č\"\n",
        prints: "keys dead_caron\nkind waiting\nold \"\"\nnew \"\"\n",
    },
];

#[rattlefmt::skip]
pub static ALL_EXPLAINED: [Explained; 5] = [
    Explained {
        name: "all-of-a-dropped-sequence",
        old: "<Multi_key> <apostrophe> <e> : \"é\" eacute # e acute\n<dead_acute> <e> : \"é\"\n",
        new: "<Multi_key> <apostrophe> <e> : \"é\" eacute # e acute\n<Multi_key> <apostrophe> <a> : \"á\"\n",
        prints: "keys dead_acute e\nkind text\nold \"é\"\nnew \"e\"\n\n1 difference: 1 text, 0 cancelled, 0 waiting\n",
    },
    Explained {
        name: "all-where-it-follows",
        old: "<dead_grave> <dead_acute> <e> : \"x\"\n<dead_acute> <e> : \"x\"\n",
        new: "<dead_acute> <e> : \"x\"\n",
        prints: "follows\n",
    },
    Explained {
        name: "all-of-three-texts",
        old: "<dead_grave> <a> : \"x\"\n<dead_circumflex> : \"z\"\n<dead_acute> : \"y\"\n",
        new: "",
        prints: "keys dead_acute\nkind text\nold \"y\"\nnew \"\"\n\nkeys dead_circumflex\nkind text\nold \"z\"\nnew \"\"\n\nkeys dead_grave a\nkind text\nold \"x\"\nnew \"a\"\n\n3 differences: 3 text, 0 cancelled, 0 waiting\n",
    },
    Explained {
        name: "all-of-two-kinds",
        old: "<dead_grave> <dead_acute> <c> : \"c\"\n",
        new: "<dead_grave> <d> : \"y\"\n<dead_tilde> <a> : \"ã\"\n",
        prints: "keys dead_tilde\nkind waiting\nold \"\"\nnew \"\"\n\nkeys dead_grave dead_acute\nkind cancelled\nold \"\"\nnew \"\"\n\n2 differences: 0 text, 1 cancelled, 1 waiting\n",
    },
    Explained {
        name: "all-of-each-kind",
        old: "<dead_grave> <dead_acute> <c> : \"c\"\n<dead_circumflex> : \"z\"\n",
        new: "<dead_grave> <d> : \"y\"\n<dead_caron> <c> : \"č\"\n",
        prints: "keys dead_circumflex\nkind text\nold \"z\"\nnew \"\"\n\nkeys dead_caron\nkind waiting\nold \"\"\nnew \"\"\n\nkeys dead_grave dead_acute\nkind cancelled\nold \"\"\nnew \"\"\n\n3 differences: 1 text, 1 cancelled, 1 waiting\n",
    },
];

#[rattlefmt::skip]
pub static MADE: [Asked; 2] = [
    Asked {
        name: "make-fresh-dead-key",
        old: "<Multi_key> <apostrophe> <e> : \"é\" eacute # e acute\n",
        new: "<Multi_key> <apostrophe> <e> : \"é\" eacute # e acute\n<dead_caron> <c> : \"č\"\n",
        repertoire: "",
        fresh: "dead_caron",
        prints: "compose-certificate 2\nbound 2\npairs 3\n0 0\n1 2\n2 3\ntypings 0\nfresh 1\nfe5a\n",
    },
    Asked {
        name: "make-unreachable",
        old: "<Multi_key> <apostrophe> <e> : \"é\" eacute # e acute\n",
        new: "<Multi_key> <apostrophe> <e> : \"é\" eacute # e acute\n",
        repertoire: "keys 0x61 0x7a\nU+00E9\n",
        fresh: "",
        prints: "unreachable U+00E9\n",
    },
];
