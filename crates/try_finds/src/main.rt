// Tries the lookup and the neighbour table on one small set: two poles, zeros of both signs, a second radius and a measurement twice. It
// prints the links, the bounds, the table and each answer, values as the bits of an f32, every NaN as 7fc00000. What stands behind a
// list's written front was 7 in the links and 9 in the table.
#![tactic(auto)]

ghost use Rattle.std.specs.Prelude.{◌≡◌, ◌≤◌, length};
ghost use Rattle.neighbors.specs.Built.{BuiltBy};

use kdtree::Tree;
use limits::Sizes;
use lookup::{Located, Lookup};
use neighbors::Steps;
use points::Point3;

fn cartesian() -> [f32; 27] {
    [
        1.0, 0.0, 0.0, //
        0.0, 1.0, -0.0, //
        -1.0, -0.0, 0.0, //
        0.0, 0.0, 1.0, //
        -0.0, 0.0, -1.0, //
        2.0, 0.0, 0.0, //
        0.75, 0.75, 0.0, //
        1.0, 0.0, 0.0, //
        9.0, 9.0, 9.0,
    ]
}

// ---- printing

// Printed through `io`, without a heap: a value by its bits, which no Display does.
// `try_blends` prints a value by the like of this: a crate for one line would be no plainer.
fn print_value(x: f32) {
    io::write_all(1, b" ");
    io::print_hex(1, floats::pattern(x) as u64, 8);
}

fn print_number(n: u64) {
    io::write_all(1, b" ");
    io::print_decimal(1, n);
}

fn print_links(name: &[u8], xs: &[u16]) {
    io::write_all(1, name);
    for &n in xs {
        print_number(u64::from(n));
    }
    io::write_all(1, b"\n");
}

fn print_point(p: Point3) {
    print_value(p.x);
    print_value(p.y);
    print_value(p.z);
}

fn print_answer(found: Located) {
    match found {
        Located::At(n) => {
            io::write_all(1, b" at");
            print_number(u64::from(n));
        }
        Located::Refused(refusal) => {
            io::write_all(1, b" refused");
            print_number(refusal.number() as u64);
            print_number(refusal.place() as u64);
        }
    }
}

fn print_bounds(look: Lookup) {
    io::write_all(1, b"phi");
    print_value(look.phi_min);
    print_value(look.phi_max);
    io::write_all(1, b"\ntheta");
    print_value(look.theta_min);
    print_value(look.theta_max);
    io::write_all(1, b"\nradius");
    print_value(look.radius_min);
    print_value(look.radius_max);
    io::write_all(1, b"\nbox");
    print_value(look.bounds.min_x);
    print_value(look.bounds.min_y);
    print_value(look.bounds.min_z);
    print_value(look.bounds.max_x);
    print_value(look.bounds.max_y);
    print_value(look.bounds.max_z);
    io::write_all(1, b"\n");
}

// ---- asking

fn sizes(m: usize) -> Sizes {
    Sizes {
        m,
        c: 3,
        r: 2,
        n: 0,
    }
}

// What a find goes by. No Tree: sizes are tried that no Tree has.
#[derive(Clone, Copy)]
struct Set<'a> {
    look: Lookup,
    cart: &'a [f32],
    left: &'a [u16],
    right: &'a [u16],
}

impl<'a> Set<'a> {
    // Both calls of one query: find, and find_mut with its coordinates afterwards.
    fn ask(&self, m: usize, q: Point3) {
        io::write_all(1, b"query");
        print_point(q);
        print_answer(
            self.look
                .find(sizes(m), self.cart, self.left, self.right, q),
        );
        let mut moved = <[f32; 3]>::from(q);
        print_answer(
            self.look
                .find_mut(sizes(m), self.cart, self.left, self.right, &mut moved),
        );
        print_point(Point3::from(moved));
        io::write_all(1, b"\n");
    }

    fn queries(&self) {
        let asked = [
            [0.0, 0.0, 0.0],
            [0.5, 0.0, 0.0],
            [4.0, 4.0, 0.5],
            [0.0, 0.25, 9.0],
            [-0.0, -0.0, -3.0],
            [1.5, 0.0, 0.0],
            [3e38, -3e38, 0.0],
            [1e-23, 0.0, 0.0],
            [1e-22, 0.0, 0.0],
            [0.0, f32::NAN, 0.0],
            [0.0, 0.0, f32::INFINITY],
        ];
        for q in asked {
            self.ask(8, Point3::from(q));
        }
        let unknown = Point3::from([f32::NAN, 0.0, 0.0]);
        self.ask(0, unknown);
        self.ask(16385, Point3::from([1.0, 0.0, 0.0]));
        self.ask(10, unknown);
    }

    // The links, and what is answered.
    fn tried(&self) {
        print_links(b"left", self.left);
        print_links(b"right", self.right);
        self.queries();
    }
}

// A table is filled over links that were built, and over no others.
fn table(look: Lookup, tree: &Tree, steps: Steps)
    requires { (tree.now.count ≡ 8)
        × BuiltBy look tree.now.count tree.now.positions.now tree.now.left.now tree.now.right.now }
{
    let mut near = [9u16; 51];
    match neighbors::fill_neighbors(look, tree, steps, &mut near) {
        Ok(()) => print_links(b"table", &near),
        Err(_) => print_links(b"stopped", &near),
    }
}

// The set as it is built, and then with a link that leads back to its owner.
fn run(cart: &[f32], left: &mut [u16], right: &mut [u16])
    requires { (24 ≤ length cart.now)
        × (8 ≤ length left.old)
        × (8 ≤ length right.old) }
{
    let look = Lookup::new(cart, 8, left, right);
    print_bounds(look);
    let tree = Tree {
        count: 8,
        positions: cart,
        left,
        right,
    };
    table(
        look,
        &tree,
        Steps {
            angle: 2.0,
            radius: 0.25,
        },
    );
    table(
        look,
        &tree,
        Steps {
            angle: 45.0,
            radius: 1.0,
        },
    );
    let built = Set {
        look,
        cart,
        left,
        right,
    };
    built.tried();
    right[0] = 0;
    let around = Set {
        look,
        cart,
        left,
        right,
    };
    around.tried();
}

fn main() {
    let cart = cartesian();
    let mut left = [7u16; 9];
    let mut right = [7u16; 9];
    run(&cart, &mut left, &mut right);
}
