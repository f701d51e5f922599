ghost use Rattle.std.specs.Prelude.{◌≡◌, ◌<◌, ◌≤◌, ◌^◌, length};
ghost use Rattle.im_gap.specs.Graph.{successors_of, weight_of, IsGraph};

/// A node leads to the targets from `first` on, up to `end`; it counts in the cost of a walk or
/// not.
#[derive(Clone, Copy, Debug)]
pub struct Node {
    pub first: u32,
    pub end: u32,
    pub counts: bool,
}

/// A graph by its edges: the targets of all nodes, those of one node side by side.
#[derive(Debug, Drop)]
pub struct Graph {
    pub nodes: Vec<Node>,
    pub targets: Vec<u32>,
}

impl Graph {
    pub(crate) fn successors(&self, v: u32) -> &[u32]
        requires { IsGraph self.now }
        ensures value { result.now ≡ successors_of self.now v }
        ensures short { length result.now < 2 ^ 32 }
    {
        match self.nodes.get(v as usize) {
            None => &[],
            Some(node) => &self.targets[node.first as usize..node.end as usize],
        }
    }

    /// 1 where the node counts, 0 where it doesn't.
    pub(crate) fn weight(&self, v: u32) -> u32
        ensures value { result ≡ weight_of self.now v }
        ensures small { result ≤ 1 }
    {
        match self.nodes.get(v as usize) {
            None => 0,
            Some(node) => u32::from(node.counts),
        }
    }
}
