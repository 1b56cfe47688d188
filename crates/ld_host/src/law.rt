// What the bytes on a host's disk represent.
ghost use Rattle.std.specs.Prelude.{◌≡◌, ℕ};
ghost use Rattle.ld_config.specs.declared.config.Config.{Config};
ghost use Rattle.ld_machine.specs.Disk.{Node, Up};
ghost use Rattle.ld_host.specs.States.{disk_in};
ghost use Rattle.ld_host.specs.Stands.{Stands, HasBytesOf};
ghost use Rattle.ld_host.specs.declared.host.Host.{Host};

/// The bytes on the disk of a host that is up represent the plain state of its node.
pub fn disk_stands_for_the_node()
    ensures { (c : Config) (n : ℕ) (host : Host) (x : Node) → Stands c n host x → x.status ≡ Up → HasBytesOf x.plain (disk_in host.state) }
{}
