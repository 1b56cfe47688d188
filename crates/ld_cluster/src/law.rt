// What lies on the disks of a cluster.
ghost use Rattle.std.specs.Prelude.{◌≡◌, ℕ, Some};
ghost use Rattle.ld_table.specs.Table.{find};
ghost use Rattle.ld_register.specs.Stands.{StandsFor};
ghost use Rattle.ld_register.specs.Calls.{unarmed};
ghost use Rattle.ld_machine.specs.Disk.{Node, Up};
ghost use Rattle.ld_cluster.specs.Standing.{state_of, IsReached};
ghost use Rattle.ld_cluster.specs.Bytes.{HasBytes, register_bytes};
ghost use Rattle.ld_cluster.specs.declared.cluster.Cluster.{Cluster};

/// The state that a cluster's steps lead to lies on its disks: the plain state of each node that is up is the one that
/// the bytes of that node's own disk represent, and the register's disk represents what the register holds.
pub fn bytes_stand_for_the_state()
    ensures nodes { (k : Cluster) (n : ℕ) (x : Node) → IsReached k → find n (state_of k).nodes ≡ Some x → x.status ≡ Up → HasBytes k n x }
    ensures register { (k : Cluster) → IsReached k → StandsFor (register_bytes k) (unarmed (state_of k).register) }
{}
