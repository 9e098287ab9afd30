ghost use Rattle.std.specs.Prelude.{◌≡◌, ◌≤◌, ◌<◌, ◌+◌, true, drop, take, filter, length, position, slice_index_or, nat_le, ℕ, ◌∷◌, vec_len, vec_capacity};
ghost use Rattle.std.specs.List.{list_any};
ghost use Rattle.std.specs.List.Sorted.{IsNonDecreasingBy, IsPermutation};
ghost use Rattle.ocm_tree.specs.declared.orders.NumberedNode.{NumberedNode};
ghost use Rattle.ocm_tree.specs.Orders.{from_number, is_node, numbered, IsInOrder};

/// A node by its index among all, with the number of the kept entry that put what stands there.
#[derive(Clone, Copy)]
pub struct NumberedNode {
    pub number: u64,
    pub index: usize,
}

/// How many nodes in the order of their numbers have earlier ones than this.
pub fn start_of(order: &[NumberedNode], number: u64) -> usize
    requires { IsNonDecreasingBy (λ (node : NumberedNode). node.number) order.now }
    ensures within { result ≤ length order.now }
    ensures later { drop result order.now ≡ from_number number order.now }
{
    order.partition_point(|node| node.number < number)
}

/// How many of the first nodes in the order of their numbers have no later number than this: these come
/// before a further one with this number.
fn end_of(order: &[NumberedNode], number: u64) -> usize
    requires { IsNonDecreasingBy (λ (node : NumberedNode). node.number) order.now }
    ensures within { result ≤ length order.now }
    ensures earlier { take result order.now ≡ filter (λ (node : NumberedNode). nat_le node.number number) order.now }
    ensures before { (k : ℕ) (d : NumberedNode) → k < result → (slice_index_or order.now k d).number ≤ number }
    ensures behind { (k : ℕ) (d : NumberedNode) → result ≤ k → k < length order.now → number ≤ (slice_index_or order.now k d).number }
{
    order.partition_point(|node| node.number <= number)
}

/// The nodes with this number, of nodes in the order of their numbers.
pub fn nodes_of(order: &[NumberedNode], number: u64) -> &[NumberedNode]
    requires { IsNonDecreasingBy (λ (node : NumberedNode). node.number) order.now }
    ensures { result.now ≡ filter (λ (node : NumberedNode). nat_le node.number number) (from_number number order.now) }
{
    let later = &order[start_of(order, number)..];
    &later[..end_of(later, number)]
}

/// Where the first node with this number and this index is.
fn position_of(nodes: &[NumberedNode], number: u64, index: usize) -> Option<usize>
    ensures { result ≡ position (is_node number index) nodes.now }
{
    nodes
        .iter()
        .position(|node| node.number == number && node.index == index)
}

/// Where the node with this number and this index is, among nodes in the order of their numbers.
pub fn place_of(order: &[NumberedNode], number: u64, index: usize) -> usize
    requires sorted { IsNonDecreasingBy (λ (node : NumberedNode). node.number) order.now }
    requires there { list_any (is_node number index) order.now ≡ true }
    ensures within { result < length order.now }
    ensures is { is_node number index (slice_index_or order.now result (record { number = number; index = index })) ≡ true }
{
    let start = start_of(order, number);
    let later = position_of(&order[start..], number, index).unwrap();
    start + later
}

/// Puts one more node at its place in the order of the numbers. It takes no memory.
pub fn put_in_place(order: &mut Vec<NumberedNode>, node: NumberedNode)
    requires sorted { IsNonDecreasingBy (λ (node : NumberedNode). node.number) order.old.items }
    requires room { vec_len order.old < vec_capacity order.old }
    ensures nodes { IsPermutation (node ∷ order.old.items) order.new.items }
    ensures sorted { IsNonDecreasingBy (λ (node : NumberedNode). node.number) order.new.items }
    ensures len { vec_len order.new ≡ vec_len order.old + 1 }
    ensures capacity { vec_capacity order.old ≤ vec_capacity order.new }
{
    let place = end_of(order, node.number);
    order.insert(place, node).unwrap();
}

/// Lists nodes of these numbers, in the order of the nodes. It takes no memory.
fn list_all(numbers: &[u64], order: &mut Vec<NumberedNode>)
    requires { length numbers.now ≤ vec_capacity order.old }
    ensures nodes { order.new.items ≡ numbered 0 numbers.now }
    ensures capacity { vec_capacity order.old ≤ vec_capacity order.new }
{
    order.clear();
    for (index, number) in numbers.iter().enumerate() {
        let node = NumberedNode {
            number: *number,
            index,
        };
        order.push_reserved(node);
    }
}

/// Puts nodes of these numbers in the order of their numbers. It takes no memory.
pub fn put_in_order(numbers: &[u64], order: &mut Vec<NumberedNode>)
    requires { length numbers.now ≤ vec_capacity order.old }
    ensures order { IsInOrder numbers.now order.new.items }
    ensures capacity { vec_capacity order.old ≤ vec_capacity order.new }
{
    list_all(numbers, order);
    order.sort_unstable_by_key(|node| node.number);
}
