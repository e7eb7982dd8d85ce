//! A law of the definition of records. It is the contract of a function that does nothing.
ghost use Rattle.dp_records.specs.RecordLaws.{DomainLaw};

/// Every text has records: those of any text, with or without its header, are in the domain of its columns.
pub fn domain_law()
    ensures { DomainLaw }
{}
