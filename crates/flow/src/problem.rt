//! What is a problem for the solver.

ghost use Rattle.std.specs.Prelude.{◌↔◌, IsTrue};
ghost use Rattle.flow.specs.Flow.{IsProblem, AreBelow, HaveLength};

use fixedbitset::FixedBitSet;

/// Whether these are a problem that [`solve`](crate::solver::solve) takes: `gens` and `kills` are
/// equally long, each set has length `facts`, and both ends of each edge are below `gens.len()`.
///
/// It does not allocate, and looks at each set's length and at each edge once at most. With no
/// nodes and no edges it is `true`, whatever `facts` is.
///
/// ```
/// let gens = [FixedBitSet::from_iter(alloc, [0, 69])?];
/// let kills = [FixedBitSet::with_capacity(alloc, 70)?];
/// assert!(rt; flow::is_problem(70, &[(0, 0)], &gens, &kills));
/// assert!(rt; !flow::is_problem(70, &[(0, 1)], &gens, &kills));
/// assert!(rt; !flow::is_problem(69, &[(0, 0)], &gens, &kills));
/// ```
pub fn is_problem(
    facts: usize,
    edges: &[(usize, usize)],
    gens: &[FixedBitSet],
    kills: &[FixedBitSet],
) -> bool
    ensures { IsTrue result ↔ IsProblem facts edges.now gens.now kills.now }
{
    gens.len() == kills.len()
        && have_length(gens, facts)
        && have_length(kills, facts)
        && ends_below(edges, gens.len())
}

// Whether each set has length `facts`.
fn have_length(sets: &[FixedBitSet], facts: usize) -> bool
    ensures { IsTrue result ↔ HaveLength facts sets.now }
{
    sets.iter().all(|set| set.len() == facts)
}

// Whether both ends of each edge are below `nodes`.
fn ends_below(edges: &[(usize, usize)], nodes: usize) -> bool
    ensures { IsTrue result ↔ AreBelow nodes edges.now }
{
    edges.iter().all(|(from, to)| *from < nodes && *to < nodes)
}
