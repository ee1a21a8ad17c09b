//! The laws of the format: no two well-formed tables share bytes, and the file of a well-formed table passes.

ghost use Rattle.cedar_format.specs.Words.{HeadersAreReadAgain, OneTable, TablesPass};

/// No two well-formed tables share their bytes, in any of the versions.
pub fn one_table_for_its_bytes()
    //= No two well-formed tables whose numbers fit share bytes, layouts and versions included: with the same bytes they are one table in
    //  one version.
    ensures { OneTable }
{}

/// The file of a well-formed table passes all steps of a load but those on memory, under a limit of at least its need.
pub fn well_formed_tables_pass()
    //= The file of a well-formed table, of either layout and in either version, passes all steps of a load but those on memory, under a
    //  limit of at least its need.
    ensures { TablesPass }
{}

/// The fields of a header that was written are read back.
pub fn headers_are_read_again()
    //= The fields of a header that was written are read back.
    ensures { HeadersAreReadAgain }
{}
