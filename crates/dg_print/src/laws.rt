// Laws of the printed form.
ghost use Rattle.dg_print.specs.Laws.{QueryReadsBack, UpsertReadsBack};

/// The printed text of the query that a text says says the same query.
pub fn queries_read_back()
    ensures { QueryReadsBack }
{}

/// The printed text of the upsert block that a text says says the same block.
pub fn upserts_read_back()
    ensures { UpsertReadsBack }
{}
