// One number a node: that of its pair where it meets G1 to G4.
ghost use Rattle.std.specs.Prelude.{◌≡◌, ℕ, ◌+◌, ◌*◌, ◌≤◌, ◌<◌, length};
ghost use Rattle.std.specs.Option.{unwrap_or};
ghost use Rattle.lists.specs.Loops.{noted};
ghost use Rattle.meaning.specs.Good.{span, G3, G4};
ghost use Rattle.laws.specs.Meshes.{mesh_at, rows_alone, Fair};
ghost use Rattle.neighbours.specs.Ready.{Ready};
ghost use Rattle.round.specs.Round.{Around};
ghost use Rattle.round.specs.Pair.{edge_of};
ghost use Rattle.good.specs.Sign.{pair_no, sign_on, sign_of, sign_from, fresh};

use neighbours::Search;
use round::{Ends, Noted};

fn g3(nodes: &[i32], search: Search, n: usize, z: u32, e: Ends) -> bool
    requires n_in_bounds { 4 * n ≤ length nodes.now }
    requires z_lt_n { z < n }
    requires lo_lt_n { e.lo < n }
    requires hi_lt_n { e.hi < n }
    requires e_value { edge_of e ≡ span (rows_alone search.rows.now search.t) z }
    ensures { result ≡ G3 (mesh_at nodes.now search.entry.rows.now n search.entry.t) z }
{
    plane::is_middle(
        tables::corner(nodes, z),
        tables::corner(nodes, e.lo),
        tables::corner(nodes, e.hi),
    )
}

fn g4(search: Search, z: u32, e: Ends) -> bool
    requires e_value { edge_of e ≡ span (rows_alone search.rows.now search.t) z }
    ensures { result ≡ G4 (rows_alone search.entry.rows.now search.entry.t) z }
{
    search.find_edge(e.lo, e.hi).is_none() && search.find_edge(e.hi, e.lo).is_none()
}

fn pair_number(e: Ends) -> u32
    requires lo_bound { e.lo < 32_768 }
    requires hi_bound { e.hi < 32_768 }
    ensures number { result ≡ pair_no (edge_of e) }
    ensures small { result ≤ 1_073_741_824 }
{
    e.lo * 32768 + e.hi + 1
}

// G3 and G4, with the pair e.
fn sign_on(nodes: &[i32], search: Search, n: usize, z: u32, e: Ends) -> Option<u32>
    requires n_in_bounds { 4 * n ≤ length nodes.now }
    requires n_bound { n ≤ 32_768 }
    requires z_lt_n { (z < n) × (e.lo < n) × (e.hi < n) }
    requires e_value { edge_of e ≡ span (rows_alone search.rows.now search.t) z }
    ensures number { unwrap_or result 0 ≡ sign_on (mesh_at nodes.now search.entry.rows.now n search.entry.t) z }
    ensures small { unwrap_or result 0 ≤ 1_073_741_824 }
{
    if g3(nodes, search, n, z, e) && g4(search, z, e) {
        Some(pair_number(e))
    } else {
        None
    }
}

// G1 to G4.
fn sign(nodes: &[i32], search: Search, n: usize, z: u32) -> Option<u32>
    requires fair { Fair search.rows.now n search.t }
    requires around { Around search.scratch.now search.nc search.rows.now search.t z }
    requires n_in_bounds { 4 * n ≤ length nodes.now }
    requires n_bound { n ≤ 32_768 }
    requires z_lt_n { z < n }
    ensures number { unwrap_or result 0 ≡ sign_of (mesh_at nodes.now search.entry.rows.now n search.entry.t) z }
    ensures small { unwrap_or result 0 ≤ 1_073_741_824 }
{
    let noted = Noted {
        rows: search.rows,
        scratch: search.scratch,
        nc: search.nc,
        t: search.t,
    };
    if round::g1(noted, n, z) && round::g2(noted, n, z) {
        sign_on(nodes, search, n, z, round::span_of(noted, n, z))
    } else {
        None
    }
}

// None for the base nodes.
fn sign_from(nodes: &[i32], search: Search, n0: usize, n: usize, z: usize) -> Option<u32>
    requires fair { Fair search.rows.now n search.t }
    requires around { Around search.scratch.now search.nc search.rows.now search.t z }
    requires n_in_bounds { 4 * n ≤ length nodes.now }
    requires n_bound { n ≤ 32_768 }
    requires z_lt_n { z < n }
    ensures number { unwrap_or result 0 ≡ sign_from n0 (mesh_at nodes.now search.entry.rows.now n search.entry.t) z }
    ensures small { unwrap_or result 0 ≤ 1_073_741_824 }
{
    if z < n0 {
        None
    } else {
        sign(nodes, search, n, z as u32)
    }
}

// Twice the number of each node, at nc and on; 0 where it has none.
pub fn signs(
    nodes: &[i32],
    rows: &[u32],
    scratch: &mut [u32],
    nc: usize,
    n0: usize,
    n: usize,
    t: usize,
)
    requires fair { Fair rows.now n t }
    requires by_index { (z : ℕ) → z < n → Around scratch.old nc rows.now t z }
    requires ready { Ready scratch.old nc rows.now t }
    requires n_in_bounds { 4 * n ≤ length nodes.now }
    requires n_bound { n ≤ 32_768 }
    requires n_le_nc { (n ≤ nc) × (nc + n ≤ length scratch.old) }
    ensures { scratch.new ≡ noted nc (fresh n0 (mesh_at nodes.now rows.now n t)) n scratch.old }
{
    for z in 0..n {
        let search = Search {
            rows,
            scratch,
            nc,
            t,
        };
        let v = sign_from(nodes, search, n0, n, z).unwrap_or(0);
        tables::put_note(scratch, nc + z, 2 * v);
    }
}
