// H.273's figures for a fill colour (specs/Figure), and how near the samples of a fill are to them.
#![tactic(auto)]
