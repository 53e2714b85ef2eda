ghost use Rattle.std.specs.Prelude.{◌≡◌, ◌<◌, ◌≤◌, IfOk, IfSome, length};
ghost use Rattle.std.specs.List.{All};
ghost use Rattle.codelets.specs.Leveled.{AreLeveled};
ghost use Rattle.stage_plan.specs.Best.{AreBest, IsBestAmong, IsBestBelow, IsChainTo, better, chain_at, chain_of, next_best};
ghost use Rattle.stage_plan.specs.Chains.{IsFirstChain, greatest_level, is_before};

use crate::fault::Chain;
use codelets::Codelet;
use dom_words::{Memory, Seq};
use std::alloc::Global;

// Whether a list is another or stands before it in dictionary order.
fn before(a: &[u32], b: &[u32]) -> bool
    ensures { result ≡ is_before a.now b.now }
{
    match a {
        [] => true,
        [x, xs @ ..] => match b {
            [] => false,
            [y, ys @ ..] => *x < *y || (*x == *y && before(xs, ys)),
        },
    }
}

// Of two chains the first.
fn better_of(chains: &[Chain], best: Option<u32>, u: u32) -> u32
    requires best { IfSome best (λ b. b < length chains.now) }
    requires other { u < length chains.now }
    ensures { result ≡ better chains.now best u }
{
    match best {
        None => u,
        Some(b) => {
            if before(chains[b as usize].as_slice(), chains[u as usize].as_slice()) {
                b
            } else {
                u
            }
        }
    }
}

// The best so far, after one more codelet.
fn next_of(
    codelets: &[Codelet],
    chains: &[Chain],
    best: Option<u32>,
    u: u32,
    level: u32,
) -> Option<u32>
    requires best { IfSome best (λ b. b < length chains.now) }
    requires chained { u < length chains.now }
    requires within { u < length codelets.now }
    ensures value { result ≡ next_best codelets.now chains.now level best u }
    ensures within { IfSome result (λ b. b < length chains.now) }
{
    if codelets[u as usize].level == level {
        Some(better_of(chains, best, u))
    } else {
        best
    }
}

// Of some codelets those of a level, and of these the one with the first chain.
fn best_among(codelets: &[Codelet], chains: &[Chain], among: &[u32], level: u32) -> Option<u32>
    requires within { All (λ u. u < length codelets.now) among.now }
    requires chained { All (λ u. u < length chains.now) among.now }
    ensures best { IsBestAmong codelets.now chains.now among.now level result }
    ensures within { IfSome result (λ b. b < length chains.now) }
{
    let mut best = None;
    'uses: for u in among {
        best = next_of(codelets, chains, best, *u, level);
    }
    best
}

// Of all codelets of a level the one with the first chain.
fn best_below(codelets: &[Codelet], chains: &[Chain], level: u32) -> Option<u32>
    requires few { length codelets.now ≤ 1024 }
    requires chained { length chains.now ≡ length codelets.now }
    ensures best { IsBestBelow codelets.now chains.now (length codelets.now) level result }
    ensures within { IfSome result (λ b. b < length chains.now) }
{
    let mut best = None;
    'codelets: for u in 0..codelets.len() {
        best = next_of(codelets, chains, best, u as u32, level);
    }
    best
}

fn copied(alloc: Global, numbers: &[u32]) -> Result<Chain, Memory>
    ensures { IfOk result (λ chain. chain ≡ numbers.now) }
{
    let mut chain = Seq::new(alloc);
    for number in numbers {
        chain.push(*number)?;
    }
    Ok(chain)
}

fn copy_at(alloc: Global, chains: &[Chain], u: u32) -> Result<Chain, Memory>
    requires { u < length chains.now }
    ensures { IfOk result (λ chain. chain ≡ chain_at chains.now u) }
{
    copied(alloc, chains[u as usize].as_slice())
}

// The chain at a position, or the empty list.
fn chain_before(alloc: Global, chains: &[Chain], best: Option<u32>) -> Result<Chain, Memory>
    requires { IfSome best (λ b. b < length chains.now) }
    ensures { IfOk result (λ chain. chain ≡ chain_of chains.now best) }
{
    match best {
        None => Ok(Seq::new(alloc)),
        Some(u) => copy_at(alloc, chains, u),
    }
}

// The first of the chains of the codelets that a codelet uses, and the codelet.
fn chain_to(
    alloc: Global,
    codelets: &[Codelet],
    chains: &[Chain],
    c: &Codelet,
) -> Result<Chain, Memory>
    requires level { 1 ≤ c.now.level }
    requires within { All (λ u. u < length codelets.now) c.now.uses }
    requires chained { All (λ u. u < length chains.now) c.now.uses }
    ensures { IfOk result (λ ns. IsChainTo codelets.now chains.now c.now ns) }
{
    let best = best_among(codelets, chains, c.uses.as_slice(), c.level - 1);
    let mut chain = chain_before(alloc, chains, best)?;
    chain.push(c.first)?;
    Ok(chain)
}

// For each codelet the first of the longest chains that end at it.
fn chains_of(alloc: Global, codelets: &[Codelet]) -> Result<Seq<Chain>, Memory>
    requires { AreLeveled codelets.now }
    ensures { IfOk result (λ chains. AreBest codelets.now chains (length codelets.now)) }
{
    let mut chains = Seq::new(alloc);
    'codelets: for c in codelets {
        let chain = chain_to(alloc, codelets, chains.as_slice(), c)?;
        chains.push(chain)?;
    }
    Ok(chains)
}

/// The numbers of the longest chains that are first in dictionary order. Takes a copy of a chain for each codelet.
pub(crate) fn longest(alloc: Global, codelets: &[Codelet], level: u32) -> Result<Chain, Memory>
    requires leveled { AreLeveled codelets.now }
    requires few { length codelets.now ≤ 1024 }
    requires level { level ≡ greatest_level codelets.now }
    requires some { 1 ≤ level }
    ensures { IfOk result (λ shown. IsFirstChain codelets.now shown) }
{
    let chains = chains_of(alloc, codelets)?;
    match best_below(codelets, chains.as_slice(), level) {
        Some(p) => copy_at(alloc, chains.as_slice(), p),
        None => unreachable!(),
    }
}

/// The greatest level.
pub(crate) fn deepest(codelets: &[Codelet]) -> u32
    ensures { result ≡ greatest_level codelets.now }
{
    let mut level = 0;
    'codelets: for c in codelets {
        level = level.max(c.level);
    }
    level
}
