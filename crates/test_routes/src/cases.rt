// The networks of REFERENCE, section 8, on which each call has its cases.
use std::io;
use test_fixtures::case_images::{line, line_path, network_s, no_arcs, zero_costs};
use test_fixtures::report::Report;

// Prints what a call's cases come to on each of the networks: network S, the network of zero costs, the network without
// arcs and the line of 200 nodes, which is lent with its path.
pub fn print<S, Zero, NoArcs, Line>(
    rt: &impl Print,
    note_s: S,
    note_zero_costs: Zero,
    note_no_arcs: NoArcs,
    note_line: Line,
) -> io::Result<()>
where
    S: Fn(Report, &[u8]) -> Report,
    Zero: Fn(Report, &[u8]) -> Report,
    NoArcs: Fn(Report, &[u8]) -> Report,
    Line: Fn(Report, &[u8], &[u16]) -> Report,
    requires note_s_is_callable { S.IsAlwaysCallable note_s }
    requires note_zero_costs_is_callable { Zero.IsAlwaysCallable note_zero_costs }
    requires note_no_arcs_is_callable { NoArcs.IsAlwaysCallable note_no_arcs }
    requires note_line_is_callable { Line.IsAlwaysCallable note_line }
{
    note_s(Report::new(), &network_s()).print(rt, "network S")?;
    note_zero_costs(Report::new(), &zero_costs()).print(rt, "network of zero costs")?;
    note_no_arcs(Report::new(), &no_arcs()).print(rt, "network without arcs")?;
    note_line(Report::new(), &line(), &line_path()).print(rt, "line of 200 nodes")
}
