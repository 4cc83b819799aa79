//! The appearance of a page.

/// The style of a page, light and dark, on a screen and on paper.
pub const STYLE: &str = r#":root {
  --ground: #f5f5f2; --paper: #ffffff; --ink: #1c2127; --soft: #545c66; --line: #d5d8dc; --tile: #e9eff5; --link: #174f86;
  --costink: #6b4300; --costfill: #fff2d1; --costline: #a56a00;
  --badink: #ffffff; --badfill: #a3231c; --badtint: #fde8e6; --badline: #a3231c; --goodink: #1a5c33; --hatch: #c3c8ce;
}
.hue0 { --hue: #0961bb; } .hue1 { --hue: #279936; } .hue2 { --hue: #953490; } .hue3 { --hue: #0d9298; }
.hue4 { --hue: #964d09; } .hue5 { --hue: #8169dd; } .hue6 { --hue: #67680b; } .hue7 { --hue: #cc4a7c; }
.hue8 { --hue: #116d8a; } .hue9 { --hue: #139676; } .hue10 { --hue: #813faa; } .hue11 { --hue: #a1790c; }
@media (prefers-color-scheme: dark) {
  :root {
    --ground: #121519; --paper: #1a1e23; --ink: #e5e8eb; --soft: #a7b0ba; --line: #363d45; --tile: #25303c; --link: #93bfef;
    --costink: #f5ce7d; --costfill: #362a10; --costline: #c0912f;
    --badink: #ffffff; --badfill: #b32d25; --badtint: #43191a; --badline: #f08078; --goodink: #83d0a0; --hatch: #434b54;
  }
  .hue0 { --hue: #92c1fd; } .hue1 { --hue: #5bae5f; } .hue2 { --hue: #f09be8; } .hue3 { --hue: #05adb4; }
  .hue4 { --hue: #fea668; } .hue5 { --hue: #9887e8; } .hue6 { --hue: #c3c54f; } .hue7 { --hue: #dc7095; }
  .hue8 { --hue: #40cfff; } .hue9 { --hue: #1ab28c; } .hue10 { --hue: #d8a4ff; } .hue11 { --hue: #be9014; }
}
* { box-sizing: border-box; }
html { scroll-padding-top: 3.5rem; }
body { margin: 0; background: var(--ground); color: var(--ink); font: .9375rem/1.45 system-ui, -apple-system, "Segoe UI", Roboto, "Liberation Sans", Arial, sans-serif; }
a { color: var(--link); text-decoration: none; unicode-bidi: isolate; }
a:hover, a:focus { text-decoration: underline; }
:focus-visible { outline: 2px solid var(--link); outline-offset: 1px; }
b { unicode-bidi: isolate; }
ul { list-style: none; margin: 0; padding: 0; }
table { border-collapse: collapse; font-variant-numeric: tabular-nums; }
th, td { text-align: left; vertical-align: top; }

.skip { position: absolute; left: -100rem; top: .5rem; z-index: 4; padding: .5rem 1rem; background: var(--paper); border: 2px solid var(--link); }
.skip:focus { left: .5rem; }
nav { position: sticky; top: 0; z-index: 3; background: var(--paper); border-bottom: 1px solid var(--line); overflow-x: auto; }
nav ul { display: flex; gap: 1.4rem; max-width: 92rem; margin: 0 auto; padding: 0 1.25rem; }
nav a { display: block; padding: .65rem 0; font-weight: 600; }
main { max-width: 92rem; margin: 0 auto; padding: 1.5rem 1.25rem 4rem; }

h1 { margin: 0; font-size: 1.7rem; line-height: 1.2; font-weight: 400; color: var(--soft); overflow-wrap: anywhere; }
h1 b { color: var(--ink); font-weight: 650; }
h2 { display: inline; font-size: 1.25rem; font-weight: 650; }
h2 small { font-size: 1rem; font-weight: 400; color: var(--soft); }
h3 { margin: 0 0 .3rem; font-size: .9rem; font-weight: 400; color: var(--soft); overflow-wrap: anywhere; }
h3 b { color: var(--ink); font-size: 1.05rem; font-weight: 650; }
.paper, .when { display: none; }
.broken h2, .costs h2 { font-size: 1rem; font-weight: 600; }
.verdict { margin: .5rem 0 .25rem; font-size: 1.15rem; }
.verdict b { color: var(--goodink); }
.verdict b::before { content: "\2713\a0"; }
.verdict strong { font-size: 1rem; }
h2 strong, h2 mark { font-size: .9rem; }
.proved { margin: 0 0 .25rem; color: var(--goodink); font-weight: 650; }
.infeasible { margin: 0 0 .25rem; color: var(--ink); border-left: 4px solid var(--badline); padding-left: .6rem; font-weight: 650; }
.size { margin: 0; color: var(--soft); }

strong, mark { display: inline-block; padding: 0 .35em; font-size: .75rem; line-height: 1.35; }
strong { background: var(--badfill); color: var(--badink); border: 1px solid var(--badline); font-weight: 650; }
strong::before { content: "\2715\a0"; }
mark { background: var(--costfill); color: var(--costink); border: 1px dashed var(--costline); border-radius: .7em; }
mark::before { content: "+\a0"; }

.tables { display: grid; grid-template-columns: repeat(auto-fit, minmax(min(100%, 30rem), 1fr)); gap: 1.25rem; margin: 1.25rem 0; align-items: start; }
.counts { width: 100%; background: var(--paper); border: 1px solid var(--line); }
.counts caption { text-align: left; font-weight: 650; padding: 0 0 .35rem; }
.counts th { font-weight: 500; padding: .3rem .75rem; white-space: nowrap; }
.counts td { padding: .3rem .75rem; border-top: 1px solid var(--line); }
.counts th { border-top: 1px solid var(--line); }
.counts td:nth-child(2) { text-align: right; font-weight: 650; }
.counts td:last-child { color: var(--soft); font-size: .87rem; width: 100%; }
.counts .none { display: none; }
.counts tfoot th, .counts tfoot td { border-top: 2px solid var(--soft); }
.counts tfoot th { font-weight: 650; }

.broken, .costs { background: var(--paper); border: 1px solid var(--line); border-left: .35rem solid var(--badline); margin: .6rem 0; }
.costs { border-left: .35rem dashed var(--costline); }
summary { cursor: pointer; padding: .4rem .75rem; }
.broken > ul, .costs > ul { display: grid; grid-template-columns: repeat(auto-fill, minmax(min(100%, 24rem), 1fr)); gap: .25rem 1.5rem; align-items: start; padding: .1rem .75rem .6rem; font-size: .9rem; }
.broken > ul > li, .costs > ul > li { padding-left: 2.9rem; text-indent: -2.9rem; overflow-wrap: anywhere; }
.broken li b, .costs li b { display: inline-block; min-width: 2.5rem; padding-right: .4rem; text-align: right; text-indent: 0; font-variant-numeric: tabular-nums; }
li li { text-indent: 0; color: var(--soft); font-size: .87rem; }
.legend { color: var(--soft); font-size: .87rem; margin: 1rem 0; }

main > details:not([class]) { margin-top: 2.25rem; border-top: 2px solid var(--line); }
main > details:not([class]) > summary { padding: .7rem 0; }
.index li { overflow-wrap: anywhere; }
.index { display: flex; flex-wrap: wrap; gap: .15rem .9rem; margin-bottom: 1rem; font-size: .87rem; font-variant-numeric: tabular-nums; }
.index [class*=hue]::before { content: ""; display: inline-block; height: .7em; margin-right: .3em; border-left: .25rem solid var(--hue); }
.grid { margin-bottom: 1.5rem; }
.grid, .list { overflow-x: auto; position: relative; min-width: 0; }
.grid table, .list table { min-width: 100%; background: var(--paper); border: 1px solid var(--line); }
.grid table { border-collapse: separate; border-spacing: 0; border-width: 0 0 1px 1px; }
.grid th { font-size: .78rem; font-weight: 500; color: var(--soft); background: var(--paper); padding: .25rem .4rem; }
.grid th, .grid td { border: solid var(--line); border-width: 1px 1px 0 0; }
.grid tbody th { position: sticky; left: 0; z-index: 1; text-align: center; min-width: 3.4rem; }
.grid td { min-width: 6.3rem; width: 20rem; height: 2.9rem; padding: 2px; }
.grid td { scroll-margin: 12rem 4.5rem 2rem; }
.lecture { position: relative; padding: .15rem .35rem .2rem .6rem; margin-bottom: 2px; background: var(--tile); border: 1px solid transparent; font-size: .78rem; line-height: 1.3; }
.lecture::before { content: ""; position: absolute; inset: 0 auto 0 0; border-left: .25rem solid var(--hue, transparent); }
.lecture:last-child { margin-bottom: 0; }
.lecture a, .lecture bdi { color: var(--soft); }
.lecture .course { display: block; color: var(--ink); font-weight: 650; font-size: .87rem; }
.lecture mark, .lecture strong { display: block; width: fit-content; padding: 0 .25em; margin-top: 2px; font-size: .6875rem; font-weight: 500; overflow-wrap: break-word; }
.lecture:has(mark) { background: var(--costfill); border: 1px dashed var(--costline); }
.lecture:has(strong) { background: var(--badtint); border: 2px solid var(--badline); }
.barred { font-size: .75rem; line-height: 1.3; color: var(--soft); }
td:has(.barred) { background: repeating-linear-gradient(135deg, var(--paper) 0 5px, var(--hatch) 5px 7px); }
div.barred { padding: .1rem .35rem; margin: 2px; background: var(--paper); }
span.barred { display: inline-block; border: 1px solid var(--line); padding: 0 .35em 0 1.9em; background: repeating-linear-gradient(135deg, var(--paper) 0 5px, var(--hatch) 5px 7px) 0 0 / 1.5em 100% no-repeat var(--paper); }
td:target, .grid:target, tr:target { outline: 3px solid var(--link); outline-offset: 1px; }

.list caption { position: absolute; width: 1px; height: 1px; overflow: hidden; clip-path: inset(50%); }
.list th, .list td { padding: .25rem .75rem; border-top: 1px solid var(--line); white-space: nowrap; font-size: .9rem; }
.list thead th { color: var(--soft); font-weight: 500; font-size: .8rem; }
.list tbody th { font-weight: 650; }
.list td:last-child { width: 100%; }

@page { margin: 12mm; @bottom-right { content: counter(page); font: 9pt sans-serif; color: #333; } }
@media screen and (max-width: 40rem) {
  main { padding: 1rem .75rem 3rem; }
  html { scroll-padding-top: 4.5rem; }
  nav ul { flex-wrap: wrap; gap: 0 1rem; padding: .2rem .75rem; font-size: .85rem; }
  nav a { padding: .25rem 0; }
  .counts th { white-space: normal; }
  .day th, .day tbody th { min-width: 2rem; padding: .25rem .2rem; }
  .day td { min-width: 3.7rem; padding: 1px; }
  .day .lecture { padding: .1rem .1rem .1rem .4rem; }
  .day .lecture .course { font-size: .78rem; }
  .grid:not(.day) table { display: block; border: 0; }
  .grid:not(.day) thead, .grid:not(.day) tbody th { display: none; }
  .grid:not(.day) tbody { display: flex; flex-direction: column; }
  .grid:not(.day) tr { display: contents; }
  .grid:not(.day) td { display: block; order: 15; width: auto; height: auto; border-width: 1px; }
  .grid:not(.day) td:not(:has(div)) { display: none; }
  .grid:not(.day) td:nth-child(2) { order: 1; }
  .grid:not(.day) td:nth-child(3) { order: 2; }
  .grid:not(.day) td:nth-child(4) { order: 3; }
  .grid:not(.day) td:nth-child(5) { order: 4; }
  .grid:not(.day) td:nth-child(6) { order: 5; }
  .grid:not(.day) td:nth-child(7) { order: 6; }
  .grid:not(.day) td:nth-child(8) { order: 7; }
  .grid:not(.day) td:nth-child(9) { order: 8; }
  .grid:not(.day) td:nth-child(10) { order: 9; }
  .grid:not(.day) td:nth-child(11) { order: 10; }
  .grid:not(.day) td:nth-child(12) { order: 11; }
  .grid:not(.day) td:nth-child(13) { order: 12; }
  .grid:not(.day) td:nth-child(14) { order: 13; }
  .grid:not(.day) td:nth-child(15) { order: 14; }
  .grid:not(.day) .when { display: block; color: var(--soft); font-weight: 600; }
}
@media print {
  :root { --ground: #fff; --paper: #fff; --ink: #000; --soft: #333; --line: #888; --tile: #fff; --link: #000; --costink: #000; --costfill: #fff; --costline: #000; --badink: #000; --badfill: #000; --badtint: #fff; --badline: #000; --hatch: #aaa; --goodink: #000; }
  html { font-size: 75%; }
  nav, .skip, .index { display: none; }
  main { max-width: none; padding: 0 2px; }
  strong { background: none; border: 2px solid #000; }
  .paper { display: inline; }
  .files { display: none; }
  .grid { break-before: page; overflow: visible; margin-bottom: 8mm; }
  .grid th, .grid td { overflow-wrap: anywhere; }
  .lecture, div.barred { contain: inline-size; }
  .grid:first-child { break-before: auto; }
  .list { overflow: visible; }
  .broken > ul, .costs > ul { grid-template-columns: repeat(auto-fill, minmax(17rem, 1fr)); }
  .tables { grid-template-columns: 1fr 1fr; }
  tr, li { break-inside: avoid; }
  main > details:not([class]) { break-before: page; border-top: 0; margin-top: 0; }
  summary, h3 { break-after: avoid; }
  .lecture { border: 1px solid #888; }
  td:has(.barred) { print-color-adjust: exact; }
}
"#;
