//! Worked programs.

use std::alloc::Global;
use std::test::Fail;

const FLOWLET: &str = "#define NUM_FLOWLETS 8000
#define THRESH 5
#define NUM_HOPS 10
struct Packet { int sport; int dport; int arrival; int new_hop; int next_hop; int id; };
int last_time[NUM_FLOWLETS] = {0};
int saved_hop[NUM_FLOWLETS] = {0};
void flowlet(struct Packet pkt) {
  pkt.new_hop = hash3(pkt.sport, pkt.dport, pkt.arrival) % NUM_HOPS;
  pkt.id = hash2(pkt.sport, pkt.dport) % NUM_FLOWLETS;
  if (pkt.arrival - last_time[pkt.id] > THRESH) {
    saved_hop[pkt.id] = pkt.new_hop;
  }
  last_time[pkt.id] = pkt.arrival;
  pkt.next_hop = saved_hop[pkt.id];
}
";

const SAMPLER: &str = "struct Packet { int sample; };
int count;
void sampler(struct Packet pkt) {
  if (count == 29) { pkt.sample = 1; count = 0; } else { pkt.sample = 0; count = count + 1; }
}
";

const CONGA: &str = "struct Packet { int dst; int util; int path; };
int best_util[2] = {100};
int best_path[2];
void conga(struct Packet pkt) {
  if (pkt.util < best_util[pkt.dst]) {
    best_util[pkt.dst] = pkt.util;
    best_path[pkt.dst] = pkt.path;
  } else if (pkt.path == best_path[pkt.dst]) {
    best_util[pkt.dst] = pkt.util;
  }
}
";

// Three arrays in one class.
const ROT: &str = "struct Packet { int t; };
int a;
int b;
int c;
void rot(struct Packet pkt) { pkt.t = a; a = b; b = c; c = pkt.t; }
";

// Two transactions with guards.
const GUARDS: &str = "struct P { int k; int x; };
int a;
int b;
void one(struct P p) if (p.k == 0) { a = a + p.x; p.k = 1; }
void two(struct P p) if (p.k == 0) { b = b + 1; }
";

// Twins of twins: the word that is shown is neither the old one nor the one that is written.
const TWINS: &str = "struct P { int x; int y; };
int s;
void f(struct P pkt) { s = s + pkt.x; s = s * 3; s = s - 1; pkt.y = pkt.y ^ s; s = s & 7; }
";

// Two arrays in one class, and a word that is written to both.
const PAIR: &str = "struct P { int i; int x; int y; };
int a[4];
int b[8];
void f(struct P pkt) { a[pkt.i] = a[pkt.i] + b[pkt.x]; b[pkt.x] = a[pkt.i]; pkt.y = b[pkt.x]; }
";

// A class that a twin of another class decides.
const LEVELS: &str = "struct P { int x; int y; int z; };
int a;
int b;
void f(struct P pkt) {
  if (a > pkt.x) { a = a - 1; b = b + pkt.y; } else { a = a + 2; pkt.z = b; }
}
";

// Two arrays in one class, one of them indexed by the word of the other.
const INSIDE: &str = "struct P { int x; };
int a;
int b[4];
void f(struct P pkt) { pkt.x = a; b[pkt.x] = b[pkt.x] + 1; a = b[pkt.x]; }
";

// A hash modulo a field that is a constant by then.
const MODULO: &str = "struct P { int x; int y; };
void f(struct P pkt) { pkt.x = 10; pkt.y = (hash1(pkt.y)) % pkt.x * 2; }
";

// Hashes modulo what is no small constant.
const REMAINDERS: &str = "struct P { int x; int y; };
void f(struct P pkt) { pkt.x = hash1(pkt.x) % -1; pkt.y = hash1(pkt.y) % (5 + 5); }
";

// A worked program by its name, or nothing.
fn worked(name: &str) -> &'static str {
    let programs = [
        ("flowlet", FLOWLET),
        ("sampler", SAMPLER),
        ("conga", CONGA),
        ("rot", ROT),
        ("guards", GUARDS),
        ("twins", TWINS),
        ("pair", PAIR),
        ("levels", LEVELS),
        ("inside", INSIDE),
        ("modulo", MODULO),
        ("remainders", REMAINDERS),
    ];
    for (known, text) in programs {
        if known == name {
            return text;
        }
    }
    ""
}

// A worked program by its name, or a program with a body over the fields x, y, z, u and v and the words a to e.
pub(crate) fn program(alloc: Global, asked: &str) -> Result<String, Fail> {
    let text = worked(asked);
    if !text.is_empty() {
        return Ok(String::from_str(alloc, text)?);
    }
    let head =
        "struct P { int x; int y; int z; int u; int v; }; int a; int b; int c; int d; int e; void f(struct P p) { ";
    Ok(format!(in alloc; "{head}{asked} }}")?)
}
