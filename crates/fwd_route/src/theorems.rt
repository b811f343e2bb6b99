//! Theorem: globs can be decided by a computable test.

ghost use Rattle.fwd_route.specs.GlobTest.{TestDecidesGlobs};

/// The test of a glob holds exactly if the glob matches.
pub fn test_decides_globs()
    ensures { TestDecidesGlobs }
{}
