// What is left of starts and commits.
ghost use Rattle.std.specs.Prelude.{◌≡◌, filter, nat_lt};
ghost use Rattle.dg_oracle.specs.Commits.{is_active as active_of, without};

// Whether the start is one of these.
pub fn is_active(active: &[u64], start: u64) -> bool
    ensures { result ≡ active_of active.now start }
{
    active.contains(&start)
}

// Leaves the starts but this one.
pub fn drop_start(active: &mut Vec<u64>, start: u64)
    ensures { active.new.items ≡ without active.old.items start }
{
    active.retain(|s| *s != start);
}

// Leaves the timestamps above the line.
pub fn drop_times(times: &mut Vec<u64>, line: u64)
    ensures { times.new.items ≡ filter (λ ts. nat_lt line ts) times.old.items }
{
    times.retain(|ts| *ts > line);
}
