// The walk from the root down to a leaf.
ghost use Rattle.std.specs.Prelude.{◌≡◌};
ghost use Rattle.rule_tree.specs.Walk.{walk_of, Walkable};

use crate::NODES;
use remy::cube::Cube;
use remy::point::Point;

// The leaf that a walk ends at, and how many cubes a search in order tests on the way.
#[derive(Clone, Copy)]
pub struct Reached {
    pub node: u16,
    pub tested: u32,
}

// From the root down to the leaf that holds p. A while: no range says how many steps down that leaf is.
pub fn walk(children: &[u16; NODES], root: Cube, p: Point) -> Reached
    requires { Walkable children.now root p }
    ensures { result ≡ walk_of children.now root p }
{
    let mut cube = root;
    let mut i: u16 = 0;
    let mut tested: u32 = 1;
    let mut c: u16 = children[0];
    while c != 0 {
        let step = cube.toward(p);
        i = c + step.number;
        cube = step.cube;
        tested = tested + 1 + (step.number as u32);
        c = children[i as usize];
    }
    Reached { node: i, tested }
}
