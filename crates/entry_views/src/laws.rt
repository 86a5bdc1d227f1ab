//! Laws of spellings, each as the contract of a function that does nothing.

ghost use Rattle.prov_entry.specs.Spelling.{IsHeader, IsBody, IsLeaf, header_fields, body_fields, leaf_fields};
ghost use Rattle.entry_views.specs.Standing.{Determines};

/// The fields of a header, whatever follows them, are those of no other header.
pub fn fields_determine_a_header()
    ensures { Determines header_fields IsHeader }
{}

/// The fields of a body, whatever follows them, are those of no other body.
pub fn fields_determine_a_body()
    ensures { Determines body_fields IsBody }
{}

/// The fields of a leaf, whatever follows them, are those of no other leaf.
pub fn fields_determine_a_leaf()
    ensures { Determines leaf_fields IsLeaf }
{}
